// What the programs come to in a language.
ghost use Rattle.std.specs.Prelude.{length, ◌≤◌};

use crate::programs::{PROGRAMS, Program};
use crate::source::{as_source, unit_of};
use clight_unit::ClightUnit;
use std::alloc::{AllocError, Global};
use test_runs::Ran;

/// A language that programs are compiled to and run in.
pub trait Target {
    /// What the units come to that are made of these typed units.
    fn run(&self, alloc: Global, units: &[ClightUnit], input: &[u8]) -> Result<Ran, AllocError>
        requires { length units.now ≤ 4096 };
}

// The typed units of a program. None where a text has none.
fn units_of(alloc: Global, program: &Program) -> Result<Option<Vec<ClightUnit>>, AllocError> {
    let mut units = Vec::new(alloc);
    for text in program.texts {
        let Some(unit) = unit_of(alloc, text.as_bytes()) else {
            return Ok(None);
        };
        units.push(unit)?;
    }
    Ok(Some(units))
}

// The run comes to what the program comes to by hand.
fn is_right(program: &Program, ran: &Ran) -> bool {
    ran.outcome == program.outcome && ran.emitted.as_slice() == program.emitted
}

// By `mean` and in the language the program comes to what it comes to by hand, and both take as much of the input.
fn agrees<T: Target>(alloc: Global, target: &T, program: &Program) -> Result<bool, AllocError> {
    let Some(units) = units_of(alloc, program)? else {
        return Ok(false);
    };
    if units.len() > 4096 {
        return Ok(false);
    }
    let Some(source) = as_source(alloc, units.as_slice(), program.input)? else {
        return Ok(false);
    };
    let ran = target.run(alloc, units.as_slice(), program.input)?;
    Ok(is_right(program, &source) && is_right(program, &ran) && source.taken == ran.taken)
}

/// The numbers in `PROGRAMS` of the programs that come to something else in the language than by hand or by `mean`.
///
/// # Errors
/// Memory has run out.
pub fn differing<T: Target>(alloc: Global, target: &T) -> Result<Vec<usize>, AllocError> {
    let mut differing = Vec::new(alloc);
    for (number, program) in PROGRAMS.iter().enumerate() {
        if !agrees(alloc, target, program)? {
            differing.push(number)?;
        }
    }
    Ok(differing)
}
