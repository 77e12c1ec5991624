//! Rtl: the graph of each function, whose nodes name those that follow by their numbers, over temporaries without end.
//!
//! `src/syntax.rt` has its syntax. `specs/Meaning.antt` has how a run stands and what each node does; `specs/Ranges.antt` what
//! numbers a function may name; `specs/Prices.antt` what a node may cost below; `specs/Units.antt` what linked units do; and `specs/laws/` what follows from these.
#![tactic(auto)]

mod language;
mod syntax;

pub use language::{Rtl, RtlUnit};
pub use syntax::{RtlFn, RtlNode, RtlParts};
