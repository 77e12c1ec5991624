// What no clause says: that the calls succeed, texts as other tools write them, and the host.
use crate::{
    Bytes, Calls, Failed, Files, GetFault, GiveFault, HostFiles, HostSink, HostSource, MemFiles,
    MemSink, MemSource, PutFault, Sink, Source, Text, hex_text, word_text,
};
use std::alloc::{AllocError, Global};
use std::io::{self, ErrorKind, Read, Write};
use std::test::Fail;
use std::{env, fs, process};

fn calls(alloc: Global, numbers: &[u64]) -> Result<Calls, AllocError> {
    Ok(Calls::from_vec(Vec::from_slice(alloc, numbers)?))
}

#[test]
fn numbers_are_written(rt: HostRuntime) {
    let decimal: [(u64, &str); 4] = [
        (0, "0"),
        (7, "7"),
        (4_294_967_295, "4294967295"),
        (18_446_744_073_709_551_615, "18446744073709551615"),
    ];
    for (value, want) in decimal {
        let text = word_text(value);
        assert_eq!(rt; text.as_slice(), want.as_bytes(), "{want}");
        assert_eq!(rt; text.len(), want.len(), "{want}");
    }
    let hexadecimal: [(u64, u8, &str); 6] = [
        (0, 8, "00000000"),
        (0x0804_9000, 8, "08049000"),
        (255, 2, "ff"),
        (0x1234_5678_90ab_cdef, 8, "1234567890abcdef"),
        (0, 0, "0"),
        (0xbeef, 16, "000000000000beef"),
    ];
    for (value, digits, want) in hexadecimal {
        assert!(rt; digits <= 16);
        assert_eq!(rt;
            hex_text(value, digits).as_slice(),
            want.as_bytes(),
            "{want}"
        );
    }
}

#[test]
fn items_are_kept(rt: HostRuntime) -> Result<(), Fail> {
    let mut text = Text::new(rt.alloc());
    assert!(rt; text.is_empty());
    text.push(b'a')?;
    text.extend(b"bc")?;
    assert_eq!(rt; text.len(), 3);
    assert_eq!(rt; *text.at(2), b'c');
    assert_eq!(rt; text.into_vec().as_slice(), b"abc".as_slice());
    Ok(())
}

#[test]
fn files_in_memory(rt: HostRuntime) -> Result<(), Fail> {
    let alloc = rt.alloc();
    let mut files = MemFiles::new(alloc, calls(alloc, &[2, 4])?);
    assert_eq!(rt; files.put(alloc, "a", b"one"), Ok(()));
    assert_eq!(rt; files.get(alloc, "a").err(), Some(GetFault::Failed));
    assert_eq!(rt; files.counts(), [1, 0, 0, 0]);
    assert_eq!(rt; files.get(alloc, "a")?.as_slice(), b"one".as_slice());
    assert_eq!(rt; files.put(alloc, "a", b"two"), Err(PutFault::Failed));
    assert_eq!(rt; files.counts(), [1, 1, 0, 0]);
    assert_eq!(rt; files.get(alloc, "a")?.as_slice(), b"one".as_slice());
    assert_eq!(rt; files.put(alloc, "a", b""), Ok(()));
    assert_eq!(rt; files.get(alloc, "a")?.as_slice(), b"".as_slice());
    assert_eq!(rt; files.get(alloc, "b").err(), Some(GetFault::Missing));
    assert_eq!(rt; files.counts(), [1, 1, 1, 0]);
    Ok(())
}

#[test]
fn source_and_sink_in_memory(rt: HostRuntime) -> Result<(), Fail> {
    let alloc = rt.alloc();
    let bytes = Bytes::from_slice(alloc, b"ab")?;
    let mut source = MemSource::new(bytes, calls(alloc, &[2])?);
    let answers = [
        Ok(Some(b'a')),
        Err(Failed),
        Ok(Some(b'b')),
        Ok(None),
        Ok(None),
    ];
    let rests: [&str; 5] = ["b", "b", "", "", ""];
    for (answer, rest) in answers.iter().zip(&rests) {
        assert_eq!(rt; source.next(), *answer);
        assert_eq!(rt; source.rest(), rest.as_bytes());
    }
    let mut sink = MemSink::new(alloc, calls(alloc, &[2, 4])?);
    assert_eq!(rt; sink.give(b'a'), Ok(()));
    assert_eq!(rt; sink.give(b'b'), Err(GiveFault::Failed));
    assert_eq!(rt; sink.flush(), Ok(()));
    assert_eq!(rt; sink.flush(), Err(Failed));
    assert_eq!(rt; sink.give(b'c'), Ok(()));
    assert_eq!(rt; sink.bytes(), b"ac".as_slice());
    Ok(())
}

#[test]
fn files_of_the_host(rt: HostRuntime) -> Result<(), Fail> {
    let alloc = rt.alloc();
    let id = process::id(rt.process());
    let folder = env::temp_dir(&rt)?;
    let folder = folder.as_str();
    let name = format!(in alloc; "{folder}/cc_base-{id}")?;
    let name = name.as_str();
    let below = format!(in alloc; "{name}/a")?;
    let mut files = HostFiles::new(&rt);
    assert_eq!(rt; files.get(alloc, name).err(), Some(GetFault::Missing));
    assert_eq!(rt; files.put(alloc, name, b"one and two"), Ok(()));
    assert_eq!(rt; files.put(alloc, name, b"three"), Ok(()));
    let got = files.get(alloc, name);
    let through = files.get(alloc, below.as_str());
    fs::remove_file(&rt, name)?;
    assert_eq!(rt; got?.as_slice(), b"three".as_slice());
    assert_eq!(rt; through.err(), Some(GetFault::Failed));
    assert_eq!(rt; files.get(alloc, folder).err(), Some(GetFault::Failed));
    assert_eq!(rt; files.put(alloc, folder, b"one"), Err(PutFault::Failed));
    Ok(())
}

/// Is interrupted so often before each piece, and then passes at most so many bytes.
#[derive(Drop)]
struct Slow {
    bytes: Vec<u8>,
    interruptions: u32,
    left: u32,
    most: usize,
}

impl Slow {
    fn new(bytes: Vec<u8>, interruptions: u32, most: usize) -> Slow {
        Slow {
            bytes,
            interruptions,
            left: interruptions,
            most,
        }
    }

    fn wait(&mut self) -> io::Result<()> {
        if self.left > 0 {
            self.left -= 1;
            return Err(io::Error::from(ErrorKind::Interrupted));
        }
        self.left = self.interruptions;
        Ok(())
    }
}

impl Read for Slow {
    fn read(&mut self, buffer: &mut [u8]) -> io::Result<usize> {
        self.wait()?;
        let n = buffer.len().min(self.bytes.len()).min(self.most);
        buffer[..n].copy_from_slice(&self.bytes[..n]);
        self.bytes.drain(..n);
        Ok(n)
    }
}

impl Write for Slow {
    fn write(&mut self, bytes: &[u8]) -> io::Result<usize> {
        self.wait()?;
        let n = bytes.len().min(self.most);
        self.bytes.extend_from_slice(&bytes[..n])?;
        Ok(n)
    }

    fn flush(&mut self) -> io::Result<()> {
        Ok(())
    }
}

#[test]
fn source_of_the_host(rt: HostRuntime) -> Result<(), Fail> {
    let mut source = HostSource::new(b"a".as_slice());
    assert_eq!(rt; source.next(), Ok(Some(b'a')));
    assert_eq!(rt; source.next(), Ok(None));
    let bytes = Vec::from_slice(rt.alloc(), b"abc")?;
    let mut source = HostSource::new(Slow::new(bytes, 999, 2));
    for want in [Some(b'a'), Some(b'b'), Some(b'c'), None] {
        assert_eq!(rt; source.next(), Ok(want));
    }
    let bytes = Vec::from_slice(rt.alloc(), b"a")?;
    let mut source = HostSource::new(Slow::new(bytes, 1000, 2));
    for want in [Err(Failed), Ok(Some(b'a')), Err(Failed), Ok(None)] {
        assert_eq!(rt; source.next(), want);
    }
    Ok(())
}

#[test]
fn sink_of_the_host(rt: HostRuntime) {
    let mut idle = Slow::new(Vec::new(rt.alloc()), 0, 0);
    let mut sink = HostSink::new(&mut idle);
    assert_eq!(rt; sink.flush(), Ok(()));
    assert_eq!(rt; sink.give(b'a'), Ok(()));
    assert_eq!(rt; sink.flush(), Err(Failed));

    let mut writer = Slow::new(Vec::new(rt.alloc()), 1000, 2);
    let mut sink = HostSink::new(&mut writer);
    for byte in *b"abc" {
        assert_eq!(rt; sink.give(byte), Ok(()));
    }
    for want in [Err(Failed), Err(Failed), Ok(())] {
        assert_eq!(rt; sink.flush(), want);
    }
    assert_eq!(rt; writer.bytes.as_slice(), b"abc".as_slice());
}

#[test]
fn full_buffer_of_the_host(rt: HostRuntime) {
    let mut writer = Slow::new(Vec::new(rt.alloc()), 1000, 8192);
    let mut sink = HostSink::new(&mut writer);
    for _ in 0..8192 {
        assert_eq!(rt; sink.give(b'a'), Ok(()));
    }
    assert_eq!(rt; sink.give(b'b'), Err(GiveFault::Failed));
    assert_eq!(rt; sink.give(b'c'), Ok(()));
    assert_eq!(rt; sink.flush(), Err(Failed));
    assert_eq!(rt; sink.flush(), Ok(()));
    assert_eq!(rt; writer.bytes.len(), 8193);
    assert_eq!(rt; writer.bytes.pop(), Some(b'c'));
}
