//! Units of the second form do, turn by turn, what `clight_sem` says of typed units that say the same: `specs/Mirrors.antt` has what
//! that means, and `specs/Runs.antt` the law. All of it is in `specs/`.
#![tactic(auto)]
