// Texts that are parsed, checked, linked and run.
use cc_base::{Bytes, Calls, MemSink, MemSource};
use clight_unit::ClightUnit;
use mean_source::{MeanEnd, MeanFault, mean};
use std::alloc::{AllocError, Global};
use text_parser::parse;
use typing_units::check;

fn unit(alloc: Global, text: &str) -> Result<ClightUnit, AllocError> {
    let Ok(tree) = parse(alloc, text.as_bytes()) else {
        return Err(AllocError);
    };
    match check(alloc, &tree) {
        Ok(unit) => Ok(unit),
        Err(_) => Err(AllocError),
    }
}

/// What units of these texts come to.
pub(crate) fn come_to(
    alloc: Global,
    texts: &[&str],
    turns: u32,
    input: &mut MemSource,
    output: &mut MemSink,
) -> Result<Result<MeanEnd, MeanFault>, AllocError> {
    let mut units = Vec::new(alloc);
    for text in texts {
        units.push(unit(alloc, text)?)?;
    }
    if units.len() > 4096 {
        return Err(AllocError);
    }
    Ok(mean(alloc, units.as_slice(), turns, input, output))
}

/// A source of these bytes that does not fail.
pub(crate) fn source(alloc: Global, bytes: &[u8]) -> Result<MemSource, AllocError> {
    Ok(MemSource::new(Bytes::from_slice(alloc, bytes)?, Calls::new(alloc)))
}

/// A sink that does not fail.
pub(crate) fn sink(alloc: Global) -> MemSink {
    MemSink::new(alloc, Calls::new(alloc))
}
