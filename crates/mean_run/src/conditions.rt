// Conditions of `if` and `for`.
ghost use Rattle.std.specs.Prelude.{◌≡◌, option_map};
ghost use Rattle.clight_sem.specs.Turns.{chosen, holds_if_any, last_block};
ghost use Rattle.mean_run.specs.Scenes.{seen};

use crate::evaluation::holds;
use crate::scene::Scene;
use clight_unit::{Arm, Statement, Test};
use sqlite_items::Items;

/// Whether the condition of a `for` holds. An absent one does. None where it goes wrong.
pub fn holds_if_any(scene: &Scene<'_>, test: &Option<Test>) -> Option<bool>
    ensures { result ≡ holds_if_any (seen scene.now) test.now }
{
    match test {
        None => Some(true),
        Some(test) => holds(scene, test),
    }
}

// The last block of an `if`, which may have none.
fn last_block(last: &Option<Items<Statement>>) -> &[Statement]
    ensures { result.now ≡ last_block last.now }
{
    match last {
        None => &[],
        Some(body) => body.as_slice(),
    }
}

/// The block that an `if` chooses: that of the first arm whose condition holds, else the last. None where a condition
/// goes wrong.
pub fn chosen<'u>(
    scene: &Scene<'_>,
    arms: &'u [Arm],
    last: &'u Option<Items<Statement>>,
) -> Option<&'u [Statement]>
    ensures { option_map (λ body. body.now) result ≡ chosen (seen scene.now) arms.now last.now }
{
    'arms: for arm in arms {
        match holds(scene, &arm.test) {
            None => return None,
            Some(true) => return Some(arm.body.as_slice()),
            Some(false) => {}
        }
    }
    Some(last_block(last))
}
