// What the newest call finds expressions in, and what it is given.
ghost use Rattle.std.specs.Prelude.{◌≡◌, Some, None, if◌then◌else◌};
ghost use Rattle.clight_sem.specs.States.{scene_of};
ghost use Rattle.clight_sem.specs.Turns.{given, set_temporary};
ghost use Rattle.mean_run.specs.Scenes.{seen};
ghost use Rattle.mean_run.specs.Processes.{linked_of, world_of};

use crate::evaluation::convert;
use crate::process::Process;
use crate::program::Program;
use crate::scene::Scene;
use block_mem::Value;
use clight_sem::Destination;

impl<'u> Process<'u> {
    /// What the newest call finds expressions in.
    pub fn scene<'p>(&'p self, program: &'p Program<'u>) -> Scene<'p>
        ensures { seen result ≡ scene_of (linked_of program.now) (world_of self.now) }
    {
        Scene {
            memory: &self.memory,
            temporaries: self.top.temporaries.as_slice(),
            objects: program.objects(self.top.unit),
            activation: self.top.activation,
        }
    }

    // Sets a temporary of the newest call.
    fn set_temporary(&mut self, number: u32, value: Value)
        ensures { set_temporary (world_of self.old) number (Some value) ≡ Some (world_of self.new) }
    {
        let number = number as usize;
        if number < self.top.temporaries.len() {
            self.top.temporaries.set(number, Some(value));
        }
    }

    /// Gives the newest call a value, where it can go where it is to go; else the answer is false.
    pub fn give(&mut self, destination: &Destination, value: Value) -> bool
        ensures given { (if result then Some (world_of self.new) else None) ≡ given destination.now value (world_of self.old) }
        ensures calls { self.new.calls ≡ self.old.calls }
    {
        match destination {
            Destination::Nowhere => true,
            Destination::Temporary(number, conversion) => {
                let Some(value) = convert(conversion, value) else {
                    return false;
                };
                self.set_temporary(*number, value);
                true
            }
            Destination::Place(width, place, conversion) => {
                let Some(value) = convert(conversion, value) else {
                    return false;
                };
                let Some(()) = self.memory.store(place, *width, &value) else {
                    return false;
                };
                true
            }
        }
    }
}
