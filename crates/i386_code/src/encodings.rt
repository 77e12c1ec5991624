//! Encodings of GNU as, printed by scripts/encodings.py: the line, its bytes, and the instruction that it means.
use crate::{Address, AluOp, Cond, Instr, Reg, Rm, Scaled, ShiftOp};

macro_rules! reg {
    ($reg:ident) => {
        Rm::Reg(Reg::$reg)
    };
}

macro_rules! place {
    ($disp:expr) => {
        Address {
            base: None,
            index: None,
            disp: $disp,
        }
    };
    ($base:ident, $disp:expr) => {
        Address {
            base: Some(Reg::$base),
            index: None,
            disp: $disp,
        }
    };
    ($base:ident, $index:ident, $shift:expr, $disp:expr) => {
        Address {
            base: Some(Reg::$base),
            index: Some(Scaled {
                register: Reg::$index,
                shift: $shift,
            }),
            disp: $disp,
        }
    };
}

macro_rules! at {
    ($($part:tt),*) => {
        Rm::Mem(place!($($part),*))
    };
}

macro_rules! scaled {
    ($index:ident, $shift:expr, $disp:expr) => {
        Rm::Mem(Address {
            base: None,
            index: Some(Scaled {
                register: Reg::$index,
                shift: $shift,
            }),
            disp: $disp,
        })
    };
}

pub static ENCODINGS: [(&str, &[u8], Instr); 54] = [
    (
        "mov %al,0x8(%esp)",
        &[0x88, 0x44, 0x24, 0x08],
        Instr::StoreByte {
            to: at!(Esp, 8),
            from: Reg::Eax,
        },
    ),
    (
        "mov %bl,%cl",
        &[0x88, 0xd9],
        Instr::StoreByte {
            to: reg!(Ecx),
            from: Reg::Ebx,
        },
    ),
    (
        "mov %eax,0x8(%esp)",
        &[0x89, 0x44, 0x24, 0x08],
        Instr::Store {
            to: at!(Esp, 8),
            from: Reg::Eax,
        },
    ),
    (
        "mov %ebx,(%ebp)",
        &[0x89, 0x5d, 0x00],
        Instr::Store {
            to: at!(Ebp, 0),
            from: Reg::Ebx,
        },
    ),
    (
        "mov %ecx,0x12345678",
        &[0x89, 0x0d, 0x78, 0x56, 0x34, 0x12],
        Instr::Store {
            to: at!(0x1234_5678),
            from: Reg::Ecx,
        },
    ),
    (
        "mov %edi,%esi",
        &[0x89, 0xfe],
        Instr::Store {
            to: reg!(Esi),
            from: Reg::Edi,
        },
    ),
    (
        "mov %edx,-0x80(%ebx)",
        &[0x89, 0x53, 0x80],
        Instr::Store {
            to: at!(Ebx, 0xffff_ff80),
            from: Reg::Edx,
        },
    ),
    (
        "mov %edx,0x80(%ebx)",
        &[0x89, 0x93, 0x80, 0x00, 0x00, 0x00],
        Instr::Store {
            to: at!(Ebx, 0x80),
            from: Reg::Edx,
        },
    ),
    (
        "mov (%eax),%ecx",
        &[0x8b, 0x08],
        Instr::Load {
            to: Reg::Ecx,
            from: at!(Eax, 0),
        },
    ),
    (
        "mov 0x10(%eax,%ecx,4),%edx",
        &[0x8b, 0x54, 0x88, 0x10],
        Instr::Load {
            to: Reg::Edx,
            from: at!(Eax, Ecx, 2, 0x10),
        },
    ),
    (
        "mov 0x0(,%esi,8),%edi",
        &[0x8b, 0x3c, 0xf5, 0x00, 0x00, 0x00, 0x00],
        Instr::Load {
            to: Reg::Edi,
            from: scaled!(Esi, 3, 0),
        },
    ),
    (
        "mov (%esp),%eax",
        &[0x8b, 0x04, 0x24],
        Instr::Load {
            to: Reg::Eax,
            from: at!(Esp, 0),
        },
    ),
    (
        "mov (%ebp,%eax,1),%eax",
        &[0x8b, 0x44, 0x05, 0x00],
        Instr::Load {
            to: Reg::Eax,
            from: at!(Ebp, Eax, 0, 0),
        },
    ),
    (
        "mov -0x100(%esp,%ebp,2),%ebx",
        &[0x8b, 0x9c, 0x6c, 0x00, 0xff, 0xff, 0xff],
        Instr::Load {
            to: Reg::Ebx,
            from: at!(Esp, Ebp, 1, 0xffff_ff00),
        },
    ),
    (
        "mov $0x12345678,%edi",
        &[0xbf, 0x78, 0x56, 0x34, 0x12],
        Instr::LoadImm {
            to: Reg::Edi,
            value: 0x1234_5678,
        },
    ),
    (
        "movl $0x7,0x4(%ebp)",
        &[0xc7, 0x45, 0x04, 0x07, 0x00, 0x00, 0x00],
        Instr::StoreImm {
            to: at!(Ebp, 4),
            value: 7,
        },
    ),
    (
        "movzbl %bl,%esi",
        &[0x0f, 0xb6, 0xf3],
        Instr::ZeroByte {
            to: Reg::Esi,
            from: reg!(Ebx),
        },
    ),
    (
        "movsbl 0x3(%ecx),%edi",
        &[0x0f, 0xbe, 0x79, 0x03],
        Instr::SignByte {
            to: Reg::Edi,
            from: at!(Ecx, 3),
        },
    ),
    (
        "lea -0x8(%ebp,%edx,4),%eax",
        &[0x8d, 0x44, 0x95, 0xf8],
        Instr::Lea {
            to: Reg::Eax,
            from: place!(Ebp, Edx, 2, 0xffff_fff8),
        },
    ),
    (
        "add %eax,%ebx",
        &[0x01, 0xc3],
        Instr::Alu {
            op: AluOp::Add,
            to: reg!(Ebx),
            from: Reg::Eax,
        },
    ),
    (
        "sub %ecx,(%esi)",
        &[0x29, 0x0e],
        Instr::Alu {
            op: AluOp::Sub,
            to: at!(Esi, 0),
            from: Reg::Ecx,
        },
    ),
    (
        "and %edx,%eax",
        &[0x21, 0xd0],
        Instr::Alu {
            op: AluOp::And,
            to: reg!(Eax),
            from: Reg::Edx,
        },
    ),
    (
        "or %edx,0x4(%edi)",
        &[0x09, 0x57, 0x04],
        Instr::Alu {
            op: AluOp::Or,
            to: at!(Edi, 4),
            from: Reg::Edx,
        },
    ),
    (
        "xor %edi,%edi",
        &[0x31, 0xff],
        Instr::Alu {
            op: AluOp::Xor,
            to: reg!(Edi),
            from: Reg::Edi,
        },
    ),
    (
        "cmp %edx,0x100(%esp)",
        &[0x39, 0x94, 0x24, 0x00, 0x01, 0x00, 0x00],
        Instr::Alu {
            op: AluOp::Cmp,
            to: at!(Esp, 0x100),
            from: Reg::Edx,
        },
    ),
    (
        "test %eax,%eax",
        &[0x85, 0xc0],
        Instr::Alu {
            op: AluOp::Test,
            to: reg!(Eax),
            from: Reg::Eax,
        },
    ),
    (
        "add $0x1000,%ebx",
        &[0x81, 0xc3, 0x00, 0x10, 0x00, 0x00],
        Instr::AluImm {
            op: AluOp::Add,
            to: reg!(Ebx),
            value: 0x1000,
        },
    ),
    (
        "and $0xffff00,%ecx",
        &[0x81, 0xe1, 0x00, 0xff, 0xff, 0x00],
        Instr::AluImm {
            op: AluOp::And,
            to: reg!(Ecx),
            value: 0x00ff_ff00,
        },
    ),
    (
        "subl $0x80,(%edx)",
        &[0x81, 0x2a, 0x80, 0x00, 0x00, 0x00],
        Instr::AluImm {
            op: AluOp::Sub,
            to: at!(Edx, 0),
            value: 0x80,
        },
    ),
    (
        "cmp $0x7fffffff,%esi",
        &[0x81, 0xfe, 0xff, 0xff, 0xff, 0x7f],
        Instr::AluImm {
            op: AluOp::Cmp,
            to: reg!(Esi),
            value: 0x7fff_ffff,
        },
    ),
    (
        "add $0x5,%esp",
        &[0x83, 0xc4, 0x05],
        Instr::AluShort {
            op: AluOp::Add,
            to: reg!(Esp),
            value: 5,
        },
    ),
    (
        "sub $0x10,%esp",
        &[0x83, 0xec, 0x10],
        Instr::AluShort {
            op: AluOp::Sub,
            to: reg!(Esp),
            value: 16,
        },
    ),
    (
        "and $-0x10,%esp",
        &[0x83, 0xe4, 0xf0],
        Instr::AluShort {
            op: AluOp::And,
            to: reg!(Esp),
            value: -16,
        },
    ),
    (
        "cmpl $-0x1,(%eax)",
        &[0x83, 0x38, 0xff],
        Instr::AluShort {
            op: AluOp::Cmp,
            to: at!(Eax, 0),
            value: -1,
        },
    ),
    (
        "imul 0x4(%ebx),%edx",
        &[0x0f, 0xaf, 0x53, 0x04],
        Instr::Mul {
            to: Reg::Edx,
            from: at!(Ebx, 4),
        },
    ),
    ("not %eax", &[0xf7, 0xd0], Instr::Not { to: reg!(Eax) }),
    (
        "negl 0x8(%ebp)",
        &[0xf7, 0x5d, 0x08],
        Instr::Neg { to: at!(Ebp, 8) },
    ),
    ("div %ecx", &[0xf7, 0xf1], Instr::Div { to: reg!(Ecx) }),
    (
        "idivl (%esp)",
        &[0xf7, 0x3c, 0x24],
        Instr::SignDiv { to: at!(Esp, 0) },
    ),
    ("cltd", &[0x99], Instr::Cdq),
    (
        "shl %cl,%eax",
        &[0xd3, 0xe0],
        Instr::Shift {
            op: ShiftOp::Shl,
            to: reg!(Eax),
        },
    ),
    (
        "shrl %cl,(%ebx)",
        &[0xd3, 0x2b],
        Instr::Shift {
            op: ShiftOp::Shr,
            to: at!(Ebx, 0),
        },
    ),
    (
        "sar %cl,%edx",
        &[0xd3, 0xfa],
        Instr::Shift {
            op: ShiftOp::Sar,
            to: reg!(Edx),
        },
    ),
    ("push %ebp", &[0x55], Instr::Push { from: Reg::Ebp }),
    ("pop %edi", &[0x5f], Instr::Pop { to: Reg::Edi }),
    (
        "call .+0x105",
        &[0xe8, 0x00, 0x01, 0x00, 0x00],
        Instr::Call { by: 0x100 },
    ),
    (
        "jmp .+0x1005",
        &[0xe9, 0x00, 0x10, 0x00, 0x00],
        Instr::Jump { by: 0x1000 },
    ),
    (
        "jl .+0x1006",
        &[0x0f, 0x8c, 0x00, 0x10, 0x00, 0x00],
        Instr::JumpIf {
            cond: Cond::L,
            by: 0x1000,
        },
    ),
    ("jmp .-0x7e", &[0xeb, 0x80], Instr::JumpShort { by: -128 }),
    (
        "jne .+0x12",
        &[0x75, 0x10],
        Instr::JumpIfShort {
            cond: Cond::Ne,
            by: 16,
        },
    ),
    (
        "sete %al",
        &[0x0f, 0x94, 0xc0],
        Instr::SetIf {
            cond: Cond::E,
            to: reg!(Eax),
        },
    ),
    (
        "setbe 0x1(%esp)",
        &[0x0f, 0x96, 0x44, 0x24, 0x01],
        Instr::SetIf {
            cond: Cond::Be,
            to: at!(Esp, 1),
        },
    ),
    ("ret", &[0xc3], Instr::Ret),
    (
        "int $0x80",
        &[0xcd, 0x80],
        Instr::Interrupt { number: 0x80 },
    ),
];
