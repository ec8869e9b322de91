//! Reads standard input.

ghost use Rattle.std.specs.Prelude.{◌≡◌, ◌++◌, OnOk, IfOk, IfErr};
ghost use Rattle.y_io.specs.declared.file_name.FileName.TheVariants.{Input};
ghost use Rattle.yices_cli.specs.declared.exit.Exit.TheVariants.{NoMemory};
ghost use Rattle.yices_cli.specs.Parts.{IsTextTo};

use crate::exit::Exit;
use std::alloc::Global;
use y_io::{FileName, Source};

/// A text has at most so many bytes.
const TEXT_LIMIT: usize = 67108864;

/// What ended the text.
#[derive(Clone, Copy, Debug, PartialEq, Eq)]
pub enum TextEnd {
    /// The end of the input.
    InputEnd,
    /// A failed read.
    ReadFault,
    /// The limit of bytes, past which the input holds one more.
    Limit,
}

/// Reads standard input up to what ends the text, at most 4,096 bytes at a time. The error is want of
/// memory. It takes O(n) steps for n bytes.
pub fn read_text<S: Source>(alloc: Global, source: &mut S) -> Result<(Vec<u8>, TextEnd), Exit>
    ensures text { IfOk result (λ r. IsTextTo (record { held = S.holds source.old Input; breaks = S.breaks source.old Input; before = S.faults source.old; after = S.faults source.new }) r.0.items r.1) }
    ensures cause { IfErr result (λ e. e ≡ NoMemory) }
{
    let mut text = Vec::new(alloc);
    let mut buffer = [0u8; 4096];
    'pieces: loop {
        let place = text.len();
        let Ok(count) = source.read(&FileName::Input, place as u64, &mut buffer) else {
            return Ok((text, TextEnd::ReadFault));
        };
        if count == 0 {
            return Ok((text, TextEnd::InputEnd));
        }
        let room = TEXT_LIMIT - place;
        if room < count {
            keep(&mut text, &buffer[..room])?;
            return Ok((text, TextEnd::Limit));
        }
        keep(&mut text, &buffer[..count])?;
    }
}

// Adds a piece to the text.
fn keep(text: &mut Vec<u8>, piece: &[u8]) -> Result<(), Exit>
    ensures ok { OnOk result (text.new.items ≡ text.old.items ++ piece.now) }
    ensures cause { IfErr result (λ e. e ≡ NoMemory) }
{
    match text.extend_from_slice(piece) {
        Ok(()) => Ok(()),
        Err(_) => Err(Exit::NoMemory),
    }
}
