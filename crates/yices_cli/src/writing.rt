//! Writes replies.

ghost use Rattle.std.specs.Prelude.{◌≡◌, ◌≤◌, OnOk, OnErr, IfErr};
ghost use Rattle.y_io.specs.Outside.{Rose, Grows, GrowsByPart};
ghost use Rattle.yices_cli.specs.declared.exit.Exit.TheVariants.{WriteFault};

use crate::exit::Exit;
use y_io::{Sink, write_all};

/// Writes a text whole, or some first bytes of it. The error is a write fault.
pub fn write_text<K: Sink>(out: &mut K, text: &str) -> Result<(), Exit>
    ensures ok { OnOk result (Grows (K.written out.old) (K.written out.new) text.now) }
    ensures part { OnErr result (GrowsByPart (K.written out.old) (K.written out.new) text.now) }
    ensures rose { OnErr result (Rose (K.faults out.old) (K.faults out.new)) }
    ensures fault { IfErr result (λ e. e ≡ WriteFault) }
    ensures later { K.faults out.old ≤ K.faults out.new }
{
    match write_all(out, text.as_bytes()) {
        Ok(()) => Ok(()),
        Err(_) => Err(Exit::WriteFault),
    }
}
