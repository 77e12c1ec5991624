// Texts that are parsed, checked and linked, and run as they are.
ghost use Rattle.std.specs.Prelude.{length, ◌≤◌};

use cc_base::{Bytes, Calls, MemSink, MemSource, Outcome};
use clight_unit::ClightUnit;
use mean_source::{MeanEnd, mean};
use std::alloc::{AllocError, Global};
use test_runs::Ran;
use text_parser::parse;
use typing_units::check;

// How many turns a run of the source may take.
const TURNS: u32 = 100_000;

/// The typed unit of a text, if it has one.
pub fn unit_of(alloc: Global, text: &[u8]) -> Option<ClightUnit> {
    let tree = parse(alloc, text).ok()?;
    check(alloc, &tree).ok()
}

fn outcome(end: MeanEnd) -> Outcome {
    match end {
        MeanEnd::Ended(status) => Outcome::Ended(status),
        MeanEnd::Spent => Outcome::Running,
        MeanEnd::Wrong { .. } => Outcome::Wrong,
        MeanEnd::Deep { .. } => Outcome::Deep,
    }
}

/// What typed units come to by `mean`. None where they are no program.
///
/// # Errors
/// Memory has run out.
pub fn as_source(
    alloc: Global,
    units: &[ClightUnit],
    input: &[u8],
) -> Result<Option<Ran>, AllocError>
    requires { length units.now ≤ 4096 }
{
    let mut source = MemSource::new(Bytes::from_slice(alloc, input)?, Calls::new(alloc));
    let mut sink = MemSink::new(alloc, Calls::new(alloc));
    let Ok(end) = mean(alloc, units, TURNS, &mut source, &mut sink) else {
        return Ok(None);
    };
    Ok(Some(Ran {
        outcome: outcome(end),
        emitted: sink.bytes().to_vec(alloc)?,
        taken: input.len().saturating_sub(source.rest().len()),
    }))
}
