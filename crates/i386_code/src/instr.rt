//! Instructions and what they are made of: the rows of the table, as a type.

ghost use Rattle.std.specs.Prelude.{◌≡◌, ◌<◌};

/// A general register of 32 bits. The first four have a low byte of their own: al, cl, dl and bl.
#[derive(Clone, Copy, Debug, PartialEq, Eq)]
pub enum Reg {
    Eax,
    Ecx,
    Edx,
    Ebx,
    Esp,
    Ebp,
    Esi,
    Edi,
}

impl Reg {
    ghost use Rattle.i386_code.specs.Fields.{number_of};

    /// The number by which ModRM, SIB and opcodes name the register, 0 to 7.
    pub fn number(self) -> u8
        ensures value { result ≡ number_of self }
        ensures small { result < 8 }
    {
        self as u8
    }
}

/// The index of an address: a register other than esp, times 2 to the power of `shift`, which is at most 3.
#[derive(Clone, Copy, Debug, PartialEq, Eq)]
pub struct Scaled {
    pub register: Reg,
    pub shift: u8,
}

/// An address: the sum of base, index and displacement, modulo 2^32.
#[derive(Clone, Copy, Debug, PartialEq, Eq)]
pub struct Address {
    pub base: Option<Reg>,
    pub index: Option<Scaled>,
    pub disp: u32,
}

/// An operand that ModRM names: a register, or what lies in memory at an address.
#[derive(Clone, Copy, Debug, PartialEq, Eq)]
pub enum Rm {
    Reg(Reg),
    Mem(Address),
}

/// An operation of two operands. With a constant there are only `Add`, `And`, `Sub` and `Cmp`.
#[derive(Clone, Copy, Debug, PartialEq, Eq)]
pub enum AluOp {
    Add,
    Sub,
    And,
    Or,
    Xor,
    Cmp,
    Test,
}

/// A shift by cl.
#[derive(Clone, Copy, Debug, PartialEq, Eq)]
pub enum ShiftOp {
    Shl,
    Shr,
    Sar,
}

/// A condition on the flags: below, above or equal, equal, not equal, below or equal and above of numbers
/// without a sign, and less, greater or equal, less or equal and greater of numbers with one.
#[derive(Clone, Copy, Debug, PartialEq, Eq)]
pub enum Cond {
    B,
    Ae,
    E,
    Ne,
    Be,
    A,
    L,
    Ge,
    Le,
    G,
}

impl Cond {
    ghost use Rattle.i386_code.specs.Fields.{code_of};

    /// The code by which opcodes name the condition, 0 to 15.
    pub fn code(self) -> u8
        ensures { result ≡ code_of self }
    {
        match self {
            Cond::B => 0x2,
            Cond::Ae => 0x3,
            Cond::E => 0x4,
            Cond::Ne => 0x5,
            Cond::Be => 0x6,
            Cond::A => 0x7,
            Cond::L => 0xc,
            Cond::Ge => 0xd,
            Cond::Le => 0xe,
            Cond::G => 0xf,
        }
    }
}

/// An instruction, a variant for each row of the table (docs/machine.md).
#[derive(Clone, Copy, Debug, PartialEq, Eq)]
pub enum Instr {
    /// Moves the low byte of a register.
    StoreByte { to: Rm, from: Reg },
    Store { to: Rm, from: Reg },
    Load { to: Reg, from: Rm },
    LoadImm { to: Reg, value: u32 },
    StoreImm { to: Rm, value: u32 },
    /// Loads a byte, with zeros above it.
    ZeroByte { to: Reg, from: Rm },
    /// Loads a byte, with its sign above it.
    SignByte { to: Reg, from: Rm },
    Lea { to: Reg, from: Address },
    Alu { op: AluOp, to: Rm, from: Reg },
    AluImm { op: AluOp, to: Rm, value: u32 },
    /// The same, with a constant of one byte, whose sign is extended.
    AluShort { op: AluOp, to: Rm, value: i8 },
    Mul { to: Reg, from: Rm },
    Not { to: Rm },
    Neg { to: Rm },
    Div { to: Rm },
    SignDiv { to: Rm },
    Cdq,
    Shift { op: ShiftOp, to: Rm },
    Push { from: Reg },
    Pop { to: Reg },
    /// Here and below `by` is counted from the instruction's end.
    Call { by: u32 },
    Jump { by: u32 },
    JumpIf { cond: Cond, by: u32 },
    JumpShort { by: i8 },
    JumpIfShort { cond: Cond, by: i8 },
    /// Writes a byte, 1 where the condition holds and else 0.
    SetIf { cond: Cond, to: Rm },
    Ret,
    Interrupt { number: u8 },
}

/// What `decode` answers.
#[derive(Clone, Copy, Debug, PartialEq, Eq)]
pub enum Decoded {
    /// An instruction, and how many bytes spell it.
    Is(Instr, u8),
    /// The bytes begin an instruction that has more of them.
    Short,
    /// No instruction begins so.
    Unknown,
}
