// What no clause says: that the table is the processor's, as another assembler writes it.
use crate::encodings::ENCODINGS;
use crate::{Address, Decoded, Instr, Reg, Rm, decode, encode, is_proper};

#[test]
fn as_another_assembler_writes_them(rt: HostRuntime) {
    for (line, bytes, instr) in ENCODINGS.iter() {
        assert!(rt; bytes.len() <= 11, "{line}");
        let wanted = Decoded::Is(*instr, bytes.len() as u8);
        assert_eq!(rt; decode(bytes), wanted, "{line}");
        assert!(rt; is_proper(instr), "{line}");
        assert_eq!(rt; encode(instr).as_slice(), *bytes, "{line}");
    }
}

/// mov %eax,8(%esp)
const STORE: Instr = Instr::Store {
    to: Rm::Mem(Address {
        base: Some(Reg::Esp),
        index: None,
        disp: 8,
    }),
    from: Reg::Eax,
};

/// Bytes that spell an instruction otherwise than `encode`, that are cut short, or that spell none.
const OTHERS: [(&[u8], Decoded); 9] = [
    (&[0x89, 0x84, 0x24, 0x08, 0, 0, 0], Decoded::Is(STORE, 7)),
    (&[0xb8, 0x01, 0x00], Decoded::Short),
    (&[], Decoded::Short),
    (&[0x0f], Decoded::Short),
    (&[0xc7, 0x44, 0x24], Decoded::Short),
    (&[0xf7, 0xc0], Decoded::Unknown),
    (&[0x0f, 0x05], Decoded::Unknown),
    (&[0x8d, 0xc0], Decoded::Unknown),
    (&[0x83, 0x4c], Decoded::Unknown),
];

#[test]
fn other_bytes(rt: HostRuntime) {
    for (bytes, wanted) in OTHERS {
        assert_eq!(rt; decode(bytes), wanted, "{bytes:?}");
    }
}
