// What the program asks of the outside.
ghost use Rattle.cc_base.specs.Seen.{FilesSeen, SourceSeen, SinkSeen};
ghost use Rattle.cc_base.specs.Outside.{Gets, Puts, Nexts, Gives, Flushes};

use std::alloc::Global;
use thiserror::Error;

/// The limit of a file, in bytes.
pub const FILE_LIMIT: usize = 134_217_728;

/// Why a file was not got. The files are as before.
#[derive(Clone, Copy, Debug, PartialEq, Eq, Error)]
pub enum GetFault {
    /// No file has the name.
    #[error("there is no such file")]
    Missing,
    /// The file has more than `FILE_LIMIT` bytes.
    #[error("the file is longer than 134217728 bytes")]
    Long,
    /// A read failed.
    #[error("the file cannot be read")]
    Failed,
    /// There was not enough memory for the bytes.
    #[error("there is not enough memory")]
    Memory,
}

/// Why a file was not put. Where contents are told, they are as before.
#[derive(Clone, Copy, Debug, PartialEq, Eq, Error)]
pub enum PutFault {
    /// A write failed.
    #[error("the file cannot be written")]
    Failed,
    /// There was not enough memory for the name and the bytes.
    #[error("there is not enough memory")]
    Memory,
}

/// Why a sink did not take a byte. Where its bytes are told, they are as before.
#[derive(Clone, Copy, Debug, PartialEq, Eq)]
pub enum GiveFault {
    /// A write failed.
    Failed,
    /// There was not enough memory to keep the byte.
    Memory,
}

/// A read or a write failed, and the count of faults rose, or stands at its last value.
#[derive(Clone, Copy, Debug, PartialEq, Eq)]
pub struct Failed;

/// Files by name.
pub trait Files {
    /// The contents, where they are told, and how often a read failed, a write failed, a name was missing and a
    /// file was too long.
    ghost seen: { Self → FilesSeen };

    /// The bytes under a name, at most `FILE_LIMIT`. The files stay as they are; an answer other than Ok and
    /// Memory raises its own count, unless that stands at its last value, and no answer raises another.
    fn get(&mut self, alloc: Global, name: &str) -> Result<Vec<u8>, GetFault>
        ensures { Gets (seen self.old) name.now result (seen self.new) };

    /// Puts these bytes under a name, in place of what stood there. After a refusal the told files are as before;
    /// Failed raises the count of failed writes.
    fn put(&mut self, alloc: Global, name: &str, bytes: &[u8]) -> Result<(), PutFault>
        ensures { Puts (seen self.old) name.now bytes.now result (seen self.new) };
}

/// Bytes that come.
pub trait Source {
    /// The bytes that remain, where they are told, and how often a read failed.
    ghost seen: { Self → SourceSeen };

    /// The next byte, or None where none is left. It takes no memory; after a failure what remains is as before,
    /// and the count of failures rose.
    fn next(&mut self) -> Result<Option<u8>, Failed>
        ensures { Nexts (seen self.old) result (seen self.new) };
}

/// Bytes that go.
pub trait Sink {
    /// The bytes so far, where they are told, whether all are flushed, and how often a write failed and memory was
    /// wanting.
    ghost seen: { Self → SinkSeen };

    /// Takes one byte more. After a refusal the told bytes are as before, and the count of its cause rose.
    fn give(&mut self, byte: u8) -> Result<(), GiveFault>
        ensures { Gives (seen self.old) byte result (seen self.new) };

    /// Passes on all bytes that were given. It changes none of the told bytes; a failure raises the count of
    /// failed writes.
    fn flush(&mut self) -> Result<(), Failed>
        ensures { Flushes (seen self.old) result (seen self.new) };
}
