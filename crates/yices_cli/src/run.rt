//! The whole program over a source and two sinks.

ghost use Rattle.std.specs.Prelude.{◌≡◌, map, string_bytes, OnOk, IfErr};
ghost use Rattle.y_io.specs.declared.file_name.FileName.TheVariants.{Input};
ghost use Rattle.yices_cli.specs.Headline.{Headline};
ghost use Rattle.yices_cli.specs.Parts.{Answers, AnswersIn};
ghost use Rattle.yices_cli.specs.declared.exit.Exit.TheVariants.{Done};

use crate::answering::answer_commands;
use crate::ending::end;
use crate::exit::Exit;
use crate::reading::read_text;
use crate::scripts::answer_script;
use crate::words::{Mode, mode_of};
use std::alloc::Global;
use y_io::{Sink, Source};

/// Runs the program: reads the standard input of `source`, answers its commands one after another, or
/// the lines of a script of calls where the words ask for it, writes the replies to `out`, and, where it
/// stops for a cause, one line to `errors`. `words` are those after the program's name: none, `--turns` with
/// a limit of turns for each check, or `--calls` alone.
pub fn run<S: Source, K: Sink>(
    alloc: Global,
    words: &Vec<String>,
    source: &mut S,
    out: &mut K,
    errors: &mut K,
) -> Exit
    ensures headline { Headline (map string_bytes words.now.items)
        (record { held = S.holds source.old Input; breaks = S.breaks source.old Input; before = S.faults source.old; after = S.faults source.new })
        (record { old = K.written out.old; new = K.written out.new; before = K.faults out.old; after = K.faults out.new })
        (record { old = K.written errors.old; new = K.written errors.new; before = K.faults errors.old; after = K.faults errors.new })
        result }
{
    let exit = answer(alloc, words, source, out);
    end(alloc, exit, errors)
}

// Answers the text, where no word is at fault.
fn answer<S: Source, K: Sink>(
    alloc: Global,
    words: &Vec<String>,
    source: &mut S,
    out: &mut K,
) -> Exit
    ensures { Answers (map string_bytes words.now.items)
        (record { held = S.holds source.old Input; breaks = S.breaks source.old Input; before = S.faults source.old; after = S.faults source.new })
        (record { old = K.written out.old; new = K.written out.new; before = K.faults out.old; after = K.faults out.new })
        result }
{
    match mode_of(words) {
        Ok(mode) => answer_as_asked(alloc, mode, source, out),
        Err(word) => Exit::Usage(word),
    }
}

// Answers the text in a mode.
fn answer_as_asked<S: Source, K: Sink>(
    alloc: Global,
    mode: Mode,
    source: &mut S,
    out: &mut K,
) -> Exit
    ensures { AnswersIn mode
        (record { held = S.holds source.old Input; breaks = S.breaks source.old Input; before = S.faults source.old; after = S.faults source.new })
        (record { old = K.written out.old; new = K.written out.new; before = K.faults out.old; after = K.faults out.new })
        result }
{
    match answer_text(alloc, mode, source, out) {
        Ok(()) => Exit::Done,
        Err(exit) => exit,
    }
}

// Reads the text and answers it in a mode.
fn answer_text<S: Source, K: Sink>(
    alloc: Global,
    mode: Mode,
    source: &mut S,
    out: &mut K,
) -> Result<(), Exit>
    ensures done { OnOk result (AnswersIn mode
        (record { held = S.holds source.old Input; breaks = S.breaks source.old Input; before = S.faults source.old; after = S.faults source.new })
        (record { old = K.written out.old; new = K.written out.new; before = K.faults out.old; after = K.faults out.new })
        Done) }
    ensures stopped { IfErr result (AnswersIn mode
        (record { held = S.holds source.old Input; breaks = S.breaks source.old Input; before = S.faults source.old; after = S.faults source.new })
        (record { old = K.written out.old; new = K.written out.new; before = K.faults out.old; after = K.faults out.new })) }
{
    let (text, end) = read_text(alloc, source)?;
    match mode {
        Mode::Language(turns) => answer_commands(alloc, text.as_slice(), end, turns, out),
        Mode::Calls => answer_script(alloc, text.as_slice(), end, out),
    }
}
