//! What may be made of a function of Rtl where each temporary has a location, its home, and that it does the same.
//!
//! `specs/Homes.antt` has the function over homes that keep apart what is live together, and `specs/Units.antt` units of such.
//! `specs/Relation.antt` says when a run of Ltl stands as one of Rtl does, and `specs/laws/` has the proofs that each turn of Rtl
//! is met by one of Ltl at the same price, that units do the same, that no bound rises and that all numbers are in range. Whatever
//! pass chooses homes gets these laws for them.
#![tactic(auto)]
