// The syntax of Ltl.
ghost use Rattle.std.specs.Prelude.{◌≡◌, length};
ghost use Rattle.ltl_lang.specs.Ranges.{InRange};

use crate::location::Loc;
use block_mem::{Op, Width};
use sqlite_items::Items;
use std::marker::Model;

/// A node: one of Rtl with a location in place of each temporary. It names the nodes that follow by their numbers.
#[derive(Drop)]
pub enum LtlNode {
    /// The head of a loop. It does nothing.
    Nop {
        next: u32,
    },
    Const {
        value: u32,
        to: Loc,
        next: u32,
    },
    /// The address of the object of the symbol of this number, so many bytes behind its start.
    Address {
        name: u32,
        plus: u32,
        to: Loc,
        next: u32,
    },
    /// The address of the local of this number among those that are blocks.
    Local {
        index: u32,
        to: Loc,
        next: u32,
    },
    /// An operator. One with a single operand has it twice.
    Apply {
        op: Op,
        left: Loc,
        right: Loc,
        to: Loc,
        next: u32,
    },
    /// What stands at the address in `place`, read at this width.
    Load {
        width: Width,
        place: Loc,
        to: Loc,
        next: u32,
    },
    Store {
        width: Width,
        place: Loc,
        value: Loc,
        next: u32,
    },
    /// A call of the symbol's function. The result goes to a location, if anywhere.
    Call {
        name: u32,
        args: Items<Loc>,
        to: Option<Loc>,
        next: u32,
    },
    /// `yes` follows where the location does not hold 0, else `no`.
    Branch {
        on: Loc,
        yes: u32,
        no: u32,
    },
    Return {
        value: Option<Loc>,
    },
}

/// What a function's definition is made of. Nothing is said of its numbers.
#[derive(Drop)]
pub struct LtlParts {
    /// Its symbol.
    pub symbol: u32,
    /// Other units do not see it.
    pub is_static: bool,
    /// How many parameters it has. They come in the first homes.
    pub parameters: u32,
    /// The location of each temporary of the function that it was made from.
    pub homes: Items<Loc>,
    /// How many slots it has.
    pub slots: u32,
    /// The sizes in bytes of its locals that are blocks.
    pub locals: Items<u32>,
    /// The stack that a call of it needs, in bytes.
    pub need: u32,
    /// The node that comes first.
    pub entry: u32,
    pub graph: Items<LtlNode>,
}

/// A function's definition, which names no node and no slot that it has not.
#[derive(Drop)]
pub struct LtlFn {
    parts: LtlParts,
}

impl Model for LtlFn {
    ghost use Rattle.ltl_lang.specs.declared.syntax.LtlParts.{LtlParts};
    ghost use Rattle.ltl_lang.specs.Ranges.{InRange};

    ghost Value = { LtlParts };

    ghost view = { λ f. f.parts };

    ghost invariant = { λ f. InRange f.parts };

    ghost inverse = { λ parts. record { parts = parts } };
}

impl LtlFn {
    /// The function of these parts.
    pub fn new(parts: LtlParts) -> LtlFn
        requires { InRange parts }
        ensures { result ≡ parts }
    {
        LtlFn { parts }
    }

    /// What it is made of.
    pub fn parts(&self) -> &LtlParts
        ensures same { result.now ≡ self.now }
        ensures range { InRange self.now }
    {
        &self.parts
    }

    /// How many nodes it has.
    pub fn nodes(&self) -> u32
        ensures { result ≡ length self.now.graph }
    {
        self.parts.graph.len() as u32
    }
}
