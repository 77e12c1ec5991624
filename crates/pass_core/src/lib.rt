//! What a language and a pass are, what it means that one run refines another, and the laws by which that is proved step by
//! step.
//!
//! `Language` has units that are made one by one, and the runs of linked ones; `Pass` makes a unit of one language of one of
//! another, and `Then` is one pass behind another. `Bounded` and `Lighter` are bounds on code and stack, which no pass raises.
//!
//! `specs/Refines.antt` has the meaning of refinement, `specs/Semantics.antt` runs that go by steps, each at a price, and
//! `specs/Meets.antt` some steps that meet one. The law of simulation is in `specs/laws/Simulation.antt`: from related states,
//! one step of the first run that leads neither to `Wrong` nor to `Deep` is met by some number of steps of the second, at no
//! higher price; then the second refines the first.
//!
//! `specs/Turns.antt` is the form of runs that the languages between the source and the machine share, by turns of a world,
//! and `specs/Alike.antt` what it means that one turn is met by others. That is all that such a pass has to prove:
//! `specs/laws/Turns.antt` gives the law of simulation for it.
#![tactic(auto)]

mod bounds;
mod language;
mod pass;

pub use bounds::{Bounded, Lighter, lightened};
pub use language::{Language, runs_grow};
pub use pass::{Pass, Then, refined, run_all};
