// Files, a source and a sink in memory. Each tells its bytes, and fails at the calls that it was told to fail at.
ghost use Rattle.std.specs.Prelude.{◌≡◌, ◌<◌, ◌≤◌, true, Some, [], option_copied};
ghost use Rattle.std.specs.Ordering.{nat_cmp};
ghost use Rattle.std.specs.Cmp.Lexicographic.{slice_cmp};
ghost use Rattle.std.specs.FinMap as map;
ghost use Rattle.cc_base.specs.InMemory.{files_seen, source_seen, sink_seen};

use crate::outside::{FILE_LIMIT, Failed, Files, GetFault, GiveFault, PutFault, Sink, Source};
use crate::sequence::{Bytes, Calls};
use std::alloc::Global;
use std::collections::VecDeque;

// The last bytes that were put under the name.
fn find<'a>(log: &'a VecDeque<(Bytes, Bytes)>, name: &[u8]) -> Option<&'a Bytes>
    ensures { option_copied result ≡ map.get (map.from_entries {R = slice_cmp nat_cmp} log.now.items) name.now }
{
    for entry in log {
        if name == entry.0.as_slice() {
            return Some(&entry.1);
        }
    }
    None
}

/// Files in memory, which tell their bytes. The calls of `get` and `put` are counted together, from 1, and those that
/// are to fail answer Failed.
#[derive(Drop)]
pub struct MemFiles {
    // newest first
    log: VecDeque<(Bytes, Bytes)>,
    fails: Calls,
    calls: u64,
    read_faults: u64,
    write_faults: u64,
    misses: u64,
    longs: u64,
}

impl MemFiles {
    /// No files, and the numbers of the calls that are to fail. It takes no memory.
    pub fn new(alloc: Global, fails: Calls) -> MemFiles
        ensures { files_seen result ≡ record { told = Some map.empty; read_faults = 0; write_faults = 0; misses = 0; longs = 0 } }
    {
        MemFiles {
            log: VecDeque::new(alloc),
            fails,
            calls: 0,
            read_faults: 0,
            write_faults: 0,
            misses: 0,
            longs: 0,
        }
    }

    // Whether this call is to fail.
    fn is_due(&mut self) -> bool
        ensures { files_seen self.new ≡ files_seen self.old }
    {
        self.calls = self.calls.saturating_add(1);
        self.fails.as_slice().contains(&self.calls)
    }

    // How often a read failed, a write failed, a name was missing and a file was too long.
    #[cfg(test)]
    pub(crate) fn counts(&self) -> [u64; 4] {
        [self.read_faults, self.write_faults, self.misses, self.longs]
    }
}

impl Files for MemFiles {
    ghost seen = { files_seen };

    fn get(&mut self, alloc: Global, name: &str) -> Result<Vec<u8>, GetFault> {
        if self.is_due() {
            self.read_faults = self.read_faults.saturating_add(1);
            return Err(GetFault::Failed);
        }
        match find(&self.log, name.as_bytes()) {
            None => {
                self.misses = self.misses.saturating_add(1);
                Err(GetFault::Missing)
            }
            Some(bytes) => {
                if bytes.len() > FILE_LIMIT {
                    self.longs = self.longs.saturating_add(1);
                    return Err(GetFault::Long);
                }
                match Vec::from_slice(alloc, bytes.as_slice()) {
                    Ok(copy) => Ok(copy),
                    Err(_) => Err(GetFault::Memory),
                }
            }
        }
    }

    fn put(&mut self, alloc: Global, name: &str, bytes: &[u8]) -> Result<(), PutFault> {
        if self.is_due() {
            self.write_faults = self.write_faults.saturating_add(1);
            return Err(PutFault::Failed);
        }
        let Ok(name) = Bytes::from_slice(alloc, name.as_bytes()) else {
            return Err(PutFault::Memory);
        };
        let Ok(bytes) = Bytes::from_slice(alloc, bytes) else {
            return Err(PutFault::Memory);
        };
        match self.log.push_front((name, bytes)) {
            Ok(()) => Ok(()),
            Err(_) => Err(PutFault::Memory),
        }
    }
}

/// A source of bytes in memory, which tells those that remain. Its calls are counted from 1, and those that are to
/// fail answer Failed.
#[derive(Drop)]
pub struct MemSource {
    bytes: Bytes,
    at: usize,
    fails: Calls,
    calls: u64,
    faults: u64,
}

impl MemSource {
    /// A source of these bytes, and the numbers of the calls that are to fail. It takes no memory.
    pub fn new(bytes: Bytes, fails: Calls) -> MemSource
        ensures { source_seen result ≡ record { told = Some bytes; faults = 0 } }
    {
        MemSource {
            bytes,
            at: 0,
            fails,
            calls: 0,
            faults: 0,
        }
    }

    /// The bytes that remain.
    pub fn rest(&self) -> &[u8]
        ensures { (source_seen self.now).told ≡ Some result.now }
    {
        let all = self.bytes.as_slice();
        if self.at < all.len() {
            &all[self.at..]
        } else {
            &[]
        }
    }
}

impl Source for MemSource {
    ghost seen = { source_seen };

    fn next(&mut self) -> Result<Option<u8>, Failed> {
        self.calls = self.calls.saturating_add(1);
        if self.fails.as_slice().contains(&self.calls) {
            self.faults = self.faults.saturating_add(1);
            return Err(Failed);
        }
        let all = self.bytes.as_slice();
        if self.at < all.len() {
            let byte = all[self.at];
            self.at += 1;
            Ok(Some(byte))
        } else {
            Ok(None)
        }
    }
}

/// A sink in memory, which tells the bytes that it has got. The calls of `give` and `flush` are counted together,
/// from 1, and those that are to fail answer Failed.
#[derive(Drop)]
pub struct MemSink {
    bytes: Bytes,
    flushed: bool,
    fails: Calls,
    calls: u64,
    faults: u64,
    wants: u64,
}

impl MemSink {
    /// A sink with no bytes, and the numbers of the calls that are to fail. It takes no memory.
    pub fn new(alloc: Global, fails: Calls) -> MemSink
        ensures { sink_seen result ≡ record { told = Some []; flushed = true; faults = 0; wants = 0 } }
    {
        MemSink {
            bytes: Bytes::new(alloc),
            flushed: true,
            fails,
            calls: 0,
            faults: 0,
            wants: 0,
        }
    }

    /// The bytes that it has got, in their order.
    pub fn bytes(&self) -> &[u8]
        ensures { (sink_seen self.now).told ≡ Some result.now }
    {
        self.bytes.as_slice()
    }
}

impl Sink for MemSink {
    ghost seen = { sink_seen };

    fn give(&mut self, byte: u8) -> Result<(), GiveFault> {
        self.calls = self.calls.saturating_add(1);
        if self.fails.as_slice().contains(&self.calls) {
            self.faults = self.faults.saturating_add(1);
            return Err(GiveFault::Failed);
        }
        match self.bytes.push(byte) {
            Ok(()) => {
                self.flushed = false;
                Ok(())
            }
            Err(_) => {
                self.wants = self.wants.saturating_add(1);
                Err(GiveFault::Memory)
            }
        }
    }

    fn flush(&mut self) -> Result<(), Failed> {
        self.calls = self.calls.saturating_add(1);
        if self.fails.as_slice().contains(&self.calls) {
            self.faults = self.faults.saturating_add(1);
            return Err(Failed);
        }
        self.flushed = true;
        Ok(())
    }
}
