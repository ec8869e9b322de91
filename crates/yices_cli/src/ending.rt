//! The line of an exit on errors.

ghost use Rattle.std.specs.Prelude.{◌≡◌, ◌⊎◌, ℕ, take};
ghost use Rattle.y_io.specs.Outside.{Rose, Grows, GrowsByPart};
ghost use Rattle.yices_cli.specs.Exits.{line_of};
ghost use Rattle.yices_cli.specs.Parts.{WritesLine, WritesOwnLine};
ghost use Rattle.yices_cli.specs.declared.exit.Exit.TheVariants.{WriteFault, NoMemory};

use crate::exit::Exit;
use std::alloc::Global;
use y_io::{Sink, write_all};

/// Writes the line of an exit, and answers that exit, or the one that stands in its place.
pub fn end<K: Sink>(alloc: Global, exit: Exit, errors: &mut K) -> Exit
    ensures { WritesLine (K.written errors.old) (K.written errors.new) (K.faults errors.old) (K.faults errors.new) exit result }
{
    if let Exit::WriteFault = exit {
        return end_output(errors);
    }
    match exit.line(alloc) {
        Ok(line) => write_line(exit, line.as_str(), errors),
        Err(_) => write_line(Exit::NoMemory, "yices: out of memory\n", errors),
    }
}

// The output failed: a failure of its line is ignored.
fn end_output<K: Sink>(errors: &mut K) -> Exit
    ensures fault { result ≡ WriteFault }
    ensures written { (n : ℕ) × Grows (K.written errors.old) (K.written errors.new) (take n (line_of WriteFault)) }
{
    let _ = write_all(errors, b"yices: write fault\n");
    Exit::WriteFault
}

// Writes a line whole, or answers a write fault.
fn write_line<K: Sink>(exit: Exit, line: &str, errors: &mut K) -> Exit
    requires { line.now ≡ line_of exit }
    ensures { WritesOwnLine (K.written errors.old) (K.written errors.new) (K.faults errors.old) (K.faults errors.new) exit result }
{
    match write_all(errors, line.as_bytes()) {
        Ok(()) => exit,
        Err(_) => Exit::WriteFault,
    }
}
