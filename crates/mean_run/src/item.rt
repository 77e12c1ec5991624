// An item of what a call has still to do.
ghost use Rattle.std.specs.Prelude.{◌≡◌};
ghost use Rattle.mean_run.specs.Lefts.{is_loop};

use clight_unit::{Simple, Statement, Test};

/// An item of what a call has still to do.
#[derive(Clone, Copy)]
pub enum Item<'u> {
    /// A statement that no turn has taken.
    Whole(&'u Statement),
    /// The first or the last simple statement of a `for`.
    Alone(&'u Simple),
    /// A `while` behind its body.
    Again(&'u Test, &'u [Statement]),
    /// The test of a `do`.
    TestOfDo(&'u [Statement], &'u Test),
    /// The test of a `for`.
    TestOfFor(&'u Option<Test>, &'u Option<Simple>, &'u [Statement]),
    /// The step of a `for`.
    StepOfFor(&'u Option<Test>, &'u Option<Simple>, &'u [Statement]),
}

/// Whether `break` and `continue` stop here.
pub fn is_loop(item: &Item<'_>) -> bool
    ensures { result ≡ is_loop item.now }
{
    match item {
        Item::Whole(_) | Item::Alone(_) | Item::TestOfFor(..) => false,
        Item::Again(..) | Item::TestOfDo(..) | Item::StepOfFor(..) => true,
    }
}
