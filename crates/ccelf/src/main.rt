//! The program: `ccelf COMMAND WORD..` over the host's files, standard input, standard output, and standard error for
//! the report line.
#![tactic(auto)]

use cc_base::{HostFiles, HostSink, HostSource};
use ccelf_build::{Status, ccelf};
use std::alloc::AllocError;
use std::env::{Env, FillError};
use std::process::ExitCode;
use std::str;

// The most bytes of a word that Linux hands to a program, with the zero behind it: MAX_ARG_STRLEN.
const MOST_OF_A_WORD: usize = 131072;

// The words after the program's name, which is not read. None where one of them is no text.
fn words_of(rt: &HostRuntime) -> Result<Option<Vec<String>>, AllocError> {
    let mut room = vec![in rt.alloc(); 0; MOST_OF_A_WORD]?;
    let mut words = Vec::new(rt.alloc());
    for number in 1..usize::MAX {
        match rt.arg(number, room.as_mut_slice()) {
            Ok(length) => {
                let Ok(word) = str::from_utf8(&room[..length]) else {
                    return Ok(None);
                };
                words.push(String::from_str(rt.alloc(), word)?)?;
            }
            Err(FillError::NotPresent) => return Ok(Some(words)),
            Err(FillError::TooLong) => return Ok(None),
        }
    }
    Ok(Some(words))
}

fn main(rt: HostRuntime) -> ExitCode {
    let words = match words_of(&rt) {
        Ok(Some(words)) => words,
        // Words that are no text fit no command, and neither do no words.
        Ok(None) => Vec::new(rt.alloc()),
        Err(_) => return ExitCode::from(Status::Memory.number()),
    };
    let mut files = HostFiles::new(&rt);
    let mut input = HostSource::new(rt.stdin());
    let mut output = HostSink::new(rt.stdout());
    let mut report = HostSink::new(rt.stderr());
    let status = ccelf(
        rt.alloc(),
        words.as_slice(),
        &mut files,
        &mut input,
        &mut output,
        &mut report,
    );
    ExitCode::from(status.number())
}
