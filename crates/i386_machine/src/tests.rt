// Small machines that are run by hand. The bytes are as GNU as writes them.
ghost use Rattle.std.specs.Prelude.{◌<◌, ◌≤◌, length};

use crate::cases::PROGRAMS;
use crate::{Cause, Event, Machine, Reg, RunEnd, run};
use cc_base::{Bytes, Calls, MemSink, MemSource};
use std::alloc::{AllocError, Global};
use std::test::Fail;

const CODE: u32 = 0x0804_9000;

// call 0x0804900E; mov ebx,eax; mov eax,1; int 0x80; and there mov eax,7; ret
const ENDS_WITH_7: &[u8] = &[
    0xe8, 9, 0, 0, 0, 0x89, 0xc3, 0xb8, 1, 0, 0, 0, 0xcd, 0x80, 0xb8, 7, 0, 0, 0, 0xc3,
];

// reads a byte to 0xBFFFFFF0, writes the byte that is there, and ends with the answer of the read
const ECHO: &[u8] = &[
    0xb8, 3, 0, 0, 0, 0xbb, 0, 0, 0, 0, 0xb9, 0xf0, 0xff, 0xff, 0xbf, 0xba, 1, 0, 0, 0, 0xcd, 0x80,
    0x89, 0xc6, 0xb8, 4, 0, 0, 0, 0xbb, 1, 0, 0, 0, 0xcd, 0x80, 0xb8, 1, 0, 0, 0, 0x89, 0xf3, 0xcd,
    0x80,
];

/// Code that gets stuck: its steps, the offset of the instruction that has none, and why: a row for each cause.
const STUCK: [(&[u8], u32, u32, Cause); 7] = [
    // mov al,ah
    (b"\x88\xe0", 1, 0, Cause::Decode),
    (b"\xb8\x01\x02\x03\x04", 2, 5, Cause::Fetch),
    // mov esp,0xBFFFFFFE; pop eax
    (
        b"\xbc\xfe\xff\xff\xbf\x58",
        2,
        5,
        Cause::Access {
            address: 0xbfff_fffe,
        },
    ),
    // mov [0x08049000],1
    (
        b"\xc7\x05\x00\x90\x04\x08\x01\x00\x00\x00",
        9,
        0,
        Cause::Access { address: CODE },
    ),
    // imul eax,eax; jl
    (b"\x0f\xaf\xc0\x0f\x8c\x00\x00\x00\x00", 9, 3, Cause::Flags),
    // div ecx
    (b"\xf7\xf1", 1, 0, Cause::Divide),
    (b"\xcd\x80", 1, 0, Cause::System),
];

fn machine_of(alloc: Global, code: &[u8]) -> Result<Machine, AllocError>
    requires some { 0 < length code.now }
    requires short { length code.now ≤ 128 }
{
    let mut machine = Machine::new(alloc, CODE, 4096)?;
    machine.add_region(CODE, code, code.len() as u32, false, true)?;
    Ok(machine)
}

fn source_of(alloc: Global, bytes: &[u8], fails: &[u64]) -> Result<MemSource, AllocError> {
    let fails = Calls::from_vec(Vec::from_slice(alloc, fails)?);
    Ok(MemSource::new(Bytes::from_slice(alloc, bytes)?, fails))
}

fn sink_of(alloc: Global, fails: &[u64]) -> Result<MemSink, AllocError> {
    let fails = Calls::from_vec(Vec::from_slice(alloc, fails)?);
    Ok(MemSink::new(alloc, fails))
}

// The end of a run over an empty input, and the machine then.
fn end_of(alloc: Global, code: &[u8], steps: u32) -> Result<(RunEnd, Machine), AllocError>
    requires some { 0 < length code.now }
    requires short { length code.now ≤ 128 }
{
    let mut machine = machine_of(alloc, code)?;
    let mut input = source_of(alloc, &[], &[])?;
    let mut output = sink_of(alloc, &[])?;
    let end = run(&mut machine, steps, &mut input, &mut output);
    Ok((end, machine))
}

#[test]
fn runs_end(rt: HostRuntime) -> Result<(), Fail> {
    for (steps, want) in [(6, RunEnd::Ended(7)), (5, RunEnd::Spent)] {
        let (end, _machine) = end_of(rt.alloc(), ENDS_WITH_7, steps)?;
        assert_eq!(rt; end, want);
    }
    for (code, steps, offset, cause) in STUCK {
        assert!(rt; !code.is_empty() && code.len() <= 128);
        let (end, _machine) = end_of(rt.alloc(), code, steps)?;
        let eip = CODE.wrapping_add(offset);
        assert_eq!(rt; end, RunEnd::Stuck { eip, cause }, "{code:?}");
    }
    Ok(())
}

#[test]
fn bytes_come_and_go(rt: HostRuntime) -> Result<(), Fail> {
    let alloc = rt.alloc();
    let table: [(&[u8], &[u8], u8); 2] = [(b"Az", b"A", 1), (b"", b"\0", 0)];
    for (given, want, status) in table {
        let mut machine = machine_of(alloc, ECHO)?;
        let mut input = source_of(alloc, given, &[1])?;
        let mut output = sink_of(alloc, &[1])?;
        // a fault of the input, then one of the output, and then neither
        for (steps, end, offset) in [
            (12, RunEnd::Read, 20),
            (12, RunEnd::Write, 34),
            (4, RunEnd::Ended(status), 43),
        ] {
            let got = run(&mut machine, steps, &mut input, &mut output);
            assert_eq!(rt; got, end);
            assert_eq!(rt; machine.eip(), CODE + offset);
            assert_eq!(rt; machine.wants_byte(), end == RunEnd::Read);
        }
        assert!(rt; output.bytes() == want);
    }
    Ok(())
}

#[test]
fn a_call_pushes_where_it_returns(rt: HostRuntime) -> Result<(), Fail> {
    let mut machine = machine_of(rt.alloc(), ENDS_WITH_7)?;
    assert_eq!(rt; machine.step(None), Event::On);
    let top = machine.register(Reg::Esp);
    assert_eq!(rt; [machine.eip(), top], [CODE + 14, 0xbfff_ffec]);
    for (address, byte) in [
        (0xbfff_ffec, Some(5)),
        (0xbfff_ffef, Some(8)),
        (0xc000_0000, None),
    ] {
        assert_eq!(rt; machine.byte_at(address), byte);
    }
    Ok(())
}

#[test]
fn programs_as_on_the_processor(rt: HostRuntime) -> Result<(), Fail> {
    for (code, want) in PROGRAMS {
        assert!(rt; !code.is_empty() && code.len() <= 128);
        let (end, machine) = end_of(rt.alloc(), code, 200)?;
        let eip = CODE + code.len() as u32;
        let cause = Cause::Fetch;
        assert_eq!(rt; end, RunEnd::Stuck { eip, cause }, "{code:?}");
        let got = [
            machine.register(Reg::Eax),
            machine.register(Reg::Ecx),
            machine.register(Reg::Edx),
            machine.register(Reg::Ebx),
        ];
        assert_eq!(rt; got, want, "{code:?}");
    }
    Ok(())
}
