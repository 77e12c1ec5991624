// Where values go.
ghost use Rattle.std.specs.Prelude.{◌≡◌};
ghost use Rattle.clight_sem.specs.Turns.{found, found_if_any};
ghost use Rattle.mean_run.specs.Scenes.{seen};

use crate::evaluation::pointer_to;
use crate::scene::Scene;
use block_mem::Op;
use clight_sem::Destination;
use clight_unit::Target;

/// The place of a target, to which values go by this conversion. None where it goes wrong.
pub fn found(scene: &Scene<'_>, conversion: Op, target: &Target) -> Option<Destination>
    ensures { result ≡ found (seen scene.now) conversion target.now }
{
    match target {
        Target::Temporary(number) => Some(Destination::Temporary(*number, conversion)),
        Target::Place(width, place) => {
            let at = pointer_to(scene, place)?;
            Some(Destination::Place(*width, at, conversion))
        }
    }
}

/// The place of a call's result, which may have none. None where it goes wrong.
pub fn found_if_any(
    scene: &Scene<'_>,
    conversion: Op,
    target: &Option<Target>,
) -> Option<Destination>
    ensures { result ≡ found_if_any (seen scene.now) conversion target.now }
{
    match target {
        None => Some(Destination::Nowhere),
        Some(target) => found(scene, conversion, target),
    }
}
