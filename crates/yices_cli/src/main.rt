//! The command `yices`: reads commands from standard input, or a script of calls with `--calls`, and
//! writes the replies.
//!
//! Its one contract is the headline of [`run::run`]: for each list of words, each text and each cut of it
//! into pieces, what is written are the replies of a run of the session, or of a run of the environment's
//! calls, and the exit is the first cause of that run to stop. It is right because the text is read whole,
//! by one loop for both modes, and then answered a command or a line at a time, each reply written whole
//! before the next is looked at: so at each stop the replies so far are what was written.
#![tactic(auto)]

mod answering;
mod ending;
mod exit;
mod reading;
mod run;
mod scripts;
mod words;
mod writing;

use crate::run::run;
use std::alloc::{AllocError, Global};
use std::env::{Env, FillError};
use std::process::ExitCode;
use std::{io, str};
use y_io::{StdSink, StdSource};

fn main(rt: HostRuntime) -> io::Result<ExitCode> {
    let words = arguments(&rt)?;
    let mut out = StdSink::output(rt.stdout());
    let mut errors = StdSink::errors(rt.stderr());
    let alloc = rt.alloc();
    let mut source = StdSource::new(rt);
    let exit = run(alloc, &words, &mut source, &mut out, &mut errors);
    Ok(ExitCode::from(exit.status()))
}

// The words after the program's name. A word that isn't UTF-8, or has more than 4,096 bytes, is at
// fault as an empty word is.
fn arguments<R: Env + AllocGlobal>(rt: &R) -> Result<Vec<String>, AllocError> {
    let mut words = Vec::new(rt.alloc());
    let mut buffer = [0u8; 4096];
    for place in 1..usize::MAX {
        match rt.arg(place, &mut buffer) {
            Ok(count) => words.push(word(rt.alloc(), &buffer[..count])?)?,
            Err(FillError::TooLong) => words.push(String::new(rt.alloc()))?,
            Err(FillError::NotPresent) => break,
        }
    }
    Ok(words)
}

// The text of a word, or none where it isn't UTF-8.
fn word(alloc: Global, bytes: &[u8]) -> Result<String, AllocError> {
    match str::from_utf8(bytes) {
        Ok(text) => String::from_str(alloc, text),
        Err(_) => Ok(String::new(alloc)),
    }
}

#[cfg(test)]
mod tests;
