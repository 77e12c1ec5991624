//! The law that texts of the second form mean what `clight_sem` says of their typed units: `specs/Laws.antt`. All of it is in `specs/`.
#![tactic(auto)]
