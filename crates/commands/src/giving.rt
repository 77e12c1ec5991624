// Bytes that are given to a sink.
ghost use Rattle.std.specs.Prelude.{◌≡◌};
ghost use Rattle.commands.specs.Giving.{GivesAll};

use cc_base::{GiveFault, Sink};

/// Gives these bytes to a sink, one after the other. After the first fault nothing more is given.
pub fn give_all<O: Sink>(bytes: &[u8], sink: &mut O) -> Result<(), GiveFault>
    ensures { GivesAll (O.seen sink.old) bytes.now result (O.seen sink.new) }
{
    for byte in bytes {
        sink.give(*byte)?;
    }
    Ok(())
}
