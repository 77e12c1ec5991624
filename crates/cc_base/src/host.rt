// The host's files, input and output. They tell no bytes, and count what fails.
ghost use Rattle.std.specs.Prelude.{◌≡◌, ◌≤◌, true, ◌<◌, vec_len, IfOk, IfErr, OnOk, length};
ghost use Rattle.cc_base.specs.Host.{files_seen, source_seen, sink_seen};

use crate::outside::{FILE_LIMIT, Failed, Files, GetFault, GiveFault, PutFault, Sink, Source};
use std::alloc::Global;
use std::fs;
use std::io::{ErrorKind, Read, Write};

// A read or write that is interrupted so often is a fault.
const TURNS: u32 = 1000;

// How many bytes pass at once.
const CHUNK: usize = 8192;

// Reads into the buffer, and says how many bytes came: none at the end.
fn read_some<R: Read>(reader: &mut R, buffer: &mut [u8]) -> Result<usize, Failed>
    ensures { IfOk result (λ n. n ≤ length buffer.old) }
{
    for _ in 0..TURNS {
        match reader.read(buffer) {
            Ok(n) => return Ok(n),
            Err(error) => {
                if error.kind() != ErrorKind::Interrupted {
                    return Err(Failed);
                }
            }
        }
    }
    Err(Failed)
}

// Writes some of the bytes, and says how many were taken.
fn write_some<W: Write>(writer: &mut W, bytes: &[u8]) -> Result<usize, Failed>
    ensures { IfOk result (λ n. (0 < n) × (n ≤ length bytes.now)) }
{
    for _ in 0..TURNS {
        match writer.write(bytes) {
            Ok(n) => return if n == 0 { Err(Failed) } else { Ok(n) },
            Err(error) => {
                if error.kind() != ErrorKind::Interrupted {
                    return Err(Failed);
                }
            }
        }
    }
    Err(Failed)
}

// Writes all bytes, and says how many were taken where that fails.
fn write_out<W: Write>(writer: &mut W, bytes: &[u8]) -> Result<(), usize>
    ensures { IfErr result (λ n. n ≤ length bytes.now) }
{
    let mut at = 0;
    while at < bytes.len() {
        match write_some(writer, &bytes[at..]) {
            Ok(n) => at += n,
            Err(_) => return Err(at),
        }
    }
    Ok(())
}

// Reads a file, up to one byte past the limit.
fn read_file<R: Read>(alloc: Global, reader: &mut R) -> Result<Vec<u8>, GetFault>
    ensures { IfOk result (λ bytes. vec_len bytes ≤ 134217728) }
{
    let mut bytes = Vec::new(alloc);
    let mut buffer = [0u8; CHUNK];
    for _ in 0..u64::MAX {
        let room = (FILE_LIMIT + 1 - bytes.len()).min(CHUNK);
        let Ok(n) = read_some(reader, &mut buffer[..room]) else {
            return Err(GetFault::Failed);
        };
        if n == 0 {
            return Ok(bytes);
        }
        if bytes.extend_from_slice(&buffer[..n]).is_err() {
            return Err(GetFault::Memory);
        }
        if bytes.len() > FILE_LIMIT {
            return Err(GetFault::Long);
        }
    }
    Err(GetFault::Failed)
}

/// The host's files, by their paths, with a count of each kind of refusal. `get` reads at most one byte past
/// `FILE_LIMIT`. A folder, or a path through a file, is a fault of reading, and so is a read that was interrupted
/// 1,000 times; a write that was interrupted so often, or takes nothing, is a fault of writing.
#[derive(Drop)]
pub struct HostFiles<'a, R: std::rt::Files> {
    rt: &'a R,
    read_faults: u64,
    write_faults: u64,
    misses: u64,
    longs: u64,
}

impl<'a, R: std::rt::Files> HostFiles<'a, R> {
    /// The files of this runtime. Nothing has failed yet.
    pub fn new(rt: &'a R) -> HostFiles<'a, R>
        ensures { files_seen result.read_faults result.write_faults result.misses result.longs ≡ files_seen 0 0 0 0 }
    {
        HostFiles {
            rt,
            read_faults: 0,
            write_faults: 0,
            misses: 0,
            longs: 0,
        }
    }
}

impl<'a, R: std::rt::Files> Files for HostFiles<'a, R> {
    ghost seen = { λ h. files_seen h.read_faults h.write_faults h.misses h.longs };

    fn get(&mut self, alloc: Global, name: &str) -> Result<Vec<u8>, GetFault> {
        let got = match fs::open(self.rt, name) {
            Ok(mut file) => read_file(alloc, &mut file),
            Err(error) => {
                if error.kind() == ErrorKind::NotFound {
                    Err(GetFault::Missing)
                } else {
                    Err(GetFault::Failed)
                }
            }
        };
        match got {
            Ok(bytes) => Ok(bytes),
            Err(GetFault::Missing) => {
                self.misses = self.misses.saturating_add(1);
                Err(GetFault::Missing)
            }
            Err(GetFault::Long) => {
                self.longs = self.longs.saturating_add(1);
                Err(GetFault::Long)
            }
            Err(GetFault::Failed) => {
                self.read_faults = self.read_faults.saturating_add(1);
                Err(GetFault::Failed)
            }
            Err(GetFault::Memory) => Err(GetFault::Memory),
        }
    }

    fn put(&mut self, _alloc: Global, name: &str, bytes: &[u8]) -> Result<(), PutFault> {
        let written = match fs::create(self.rt, name) {
            Ok(mut file) => write_out(&mut file, bytes).is_ok(),
            Err(_) => false,
        };
        if !written {
            self.write_faults = self.write_faults.saturating_add(1);
            return Err(PutFault::Failed);
        }
        Ok(())
    }
}

/// A reader as a source. It reads as many bytes as the reader has ready, up to 8,192. A read that was interrupted
/// 1,000 times is a failure.
#[derive(Drop)]
pub struct HostSource<R: Read + Drop> {
    reader: R,
    buffer: [u8; CHUNK],
    at: usize,
    end: usize,
    faults: u64,
    ghost in_buffer: { end ≤ 8192 },
}

impl<R: Read + Drop> HostSource<R> {
    /// A source of what the reader gives. Nothing is read yet, and nothing has failed.
    pub fn new(reader: R) -> HostSource<R>
        ensures { source_seen result.faults ≡ source_seen 0 }
    {
        HostSource {
            reader,
            buffer: [0u8; CHUNK],
            at: 0,
            end: 0,
            faults: 0,
        }
    }
}

impl<R: Read + Drop> Source for HostSource<R> {
    ghost seen = { λ h. source_seen h.faults };

    fn next(&mut self) -> Result<Option<u8>, Failed> {
        if self.at >= self.end {
            match read_some(&mut self.reader, &mut self.buffer) {
                Ok(n) => {
                    self.at = 0;
                    self.end = n;
                    if n == 0 {
                        return Ok(None);
                    }
                }
                Err(_) => {
                    self.faults = self.faults.saturating_add(1);
                    return Err(Failed);
                }
            }
        }
        let byte = self.buffer[self.at];
        self.at += 1;
        Ok(Some(byte))
    }
}

/// A writer as a sink. Bytes go out where the buffer of 8,192 is full, and at a flush; what a failed write did not
/// take stays in the buffer. A write that was interrupted 1,000 times, or takes nothing, is a failure. It takes no
/// memory.
#[derive(Drop)]
pub struct HostSink<W: Write + Drop> {
    writer: W,
    buffer: [u8; CHUNK],
    len: usize,
    flushed: bool,
    faults: u64,
    ghost in_buffer: { len ≤ 8192 },
}

impl<W: Write + Drop> HostSink<W> {
    /// A sink that writes to the writer. Nothing is given yet, and nothing has failed.
    pub fn new(writer: W) -> HostSink<W>
        ensures { sink_seen result.flushed result.faults ≡ sink_seen true 0 }
    {
        HostSink {
            writer,
            buffer: [0u8; CHUNK],
            len: 0,
            flushed: true,
            faults: 0,
        }
    }

    // Writes what is in the buffer. What a failed write did not take stays in it.
    fn write_buffer(&mut self) -> Result<(), Failed>
        ensures empty { OnOk result (self.new.len ≡ 0) }
        ensures faults { self.new.faults ≡ self.old.faults }
        ensures flushed { self.new.flushed ≡ self.old.flushed }
    {
        match write_out(&mut self.writer, &self.buffer[..self.len]) {
            Ok(()) => {
                self.len = 0;
                Ok(())
            }
            Err(taken) => {
                self.buffer.copy_within(taken..self.len, 0);
                self.len -= taken;
                Err(Failed)
            }
        }
    }
}

impl<W: Write + Drop> Sink for HostSink<W> {
    ghost seen = { λ h. sink_seen h.flushed h.faults };

    fn give(&mut self, byte: u8) -> Result<(), GiveFault> {
        if self.len >= CHUNK {
            if let Err(_) = self.write_buffer() {
                self.faults = self.faults.saturating_add(1);
                return Err(GiveFault::Failed);
            }
        }
        self.buffer[self.len] = byte;
        self.len += 1;
        self.flushed = false;
        Ok(())
    }

    fn flush(&mut self) -> Result<(), Failed> {
        if let Err(_) = self.write_buffer() {
            self.faults = self.faults.saturating_add(1);
            return Err(Failed);
        }
        if let Err(_) = self.writer.flush() {
            self.faults = self.faults.saturating_add(1);
            return Err(Failed);
        }
        self.flushed = true;
        Ok(())
    }
}
