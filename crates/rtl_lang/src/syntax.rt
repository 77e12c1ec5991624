// The syntax of Rtl.
ghost use Rattle.std.specs.Prelude.{◌≡◌, length};
ghost use Rattle.rtl_lang.specs.Ranges.{InRange};

use block_mem::{Op, Width};
use sqlite_items::Items;
use std::marker::Model;

/// A node. It reads and writes temporaries by their numbers, and names the nodes that follow by theirs.
#[derive(Drop)]
pub enum RtlNode {
    /// The head of a loop. It does nothing.
    Nop {
        next: u32,
    },
    Const {
        value: u32,
        to: u32,
        next: u32,
    },
    /// The address of the object of the symbol of this number, so many bytes behind its start.
    Address {
        name: u32,
        plus: u32,
        to: u32,
        next: u32,
    },
    /// The address of the local of this number among those that are blocks.
    Local {
        index: u32,
        to: u32,
        next: u32,
    },
    /// An operator. One with a single operand has it twice.
    Apply {
        op: Op,
        left: u32,
        right: u32,
        to: u32,
        next: u32,
    },
    /// What stands at the address in `place`, read at this width.
    Load {
        width: Width,
        place: u32,
        to: u32,
        next: u32,
    },
    Store {
        width: Width,
        place: u32,
        value: u32,
        next: u32,
    },
    /// A call of the symbol's function. The result goes to a temporary, if anywhere.
    Call {
        name: u32,
        args: Items<u32>,
        to: Option<u32>,
        next: u32,
    },
    /// `yes` follows where the temporary is not 0, else `no`.
    Branch {
        on: u32,
        yes: u32,
        no: u32,
    },
    Return {
        value: Option<u32>,
    },
}

/// What a function's definition is made of. Nothing is said of its numbers.
#[derive(Drop)]
pub struct RtlParts {
    /// Its symbol.
    pub symbol: u32,
    /// Other units do not see it.
    pub is_static: bool,
    /// Its parameters are the first temporaries.
    pub parameters: u32,
    /// How many temporaries it has.
    pub temporaries: u32,
    /// The sizes in bytes of its locals that are blocks.
    pub locals: Items<u32>,
    /// The stack that a call of it needs, in bytes.
    pub need: u32,
    /// The node that comes first.
    pub entry: u32,
    pub graph: Items<RtlNode>,
}

/// A function's definition, which names no node and no temporary that it has not.
#[derive(Drop)]
pub struct RtlFn {
    parts: RtlParts,
}

impl Model for RtlFn {
    ghost use Rattle.rtl_lang.specs.declared.syntax.RtlParts.{RtlParts};
    ghost use Rattle.rtl_lang.specs.Ranges.{InRange};

    ghost Value = { RtlParts };

    ghost view = { λ f. f.parts };

    ghost invariant = { λ f. InRange f.parts };

    ghost inverse = { λ parts. record { parts = parts } };
}

impl RtlFn {
    /// The function of these parts.
    pub fn new(parts: RtlParts) -> RtlFn
        requires { InRange parts }
        ensures { result ≡ parts }
    {
        RtlFn { parts }
    }

    /// What it is made of.
    pub fn parts(&self) -> &RtlParts
        ensures same { result.now ≡ self.now }
        ensures range { InRange self.now }
    {
        &self.parts
    }

    /// How many nodes it has.
    pub fn nodes(&self) -> u32
        ensures { result ≡ length self.now.graph }
    {
        self.parts.graph.len() as u32
    }

    /// How many temporaries it has.
    pub fn temps(&self) -> u32
        ensures { result ≡ self.now.temporaries }
    {
        self.parts.temporaries
    }
}
