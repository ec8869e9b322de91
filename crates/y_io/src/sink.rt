//! What bytes are written to.
ghost use Rattle.std.specs.Prelude.{ℕ, List, Option, ◌≡◌, ◌<◌, ◌≤◌, length, take, IfOk, OnOk, OnErr};
ghost use Rattle.y_io.specs.Outside.{Rose, Grows, GrowsByPart};

use crate::failed::Failed;

/// A device that takes bytes, one after another.
pub trait Sink {
    /// The bytes that were written, where they are told.
    ghost written: { Self → Option (List ℕ) };

    /// How often a write has failed. At the last value of 64 bits it stays.
    ghost faults: { Self → ℕ };

    /// Writes the first bytes of `piece`, and answers how many. It is at least one where `piece` isn't
    /// empty.
    fn write(&mut self, piece: &[u8]) -> Result<usize, Failed>
        ensures bound { IfOk result (λ n. n ≤ length piece.now) }
        ensures some { 0 < length piece.now → IfOk result (λ n. 0 < n) }
        ensures ok { IfOk result (λ n. Grows (written self.old) (written self.new) (take n piece.now)) }
        ensures err { OnErr result (written self.new ≡ written self.old) }

        // When it fails.
        ensures later { faults self.old ≤ faults self.new }
        ensures cause { OnErr result (Rose (faults self.old) (faults self.new)) };
}

/// Writes all of `piece`. After an error the first bytes of it were written, and not all. It makes at
/// most one write for each byte, and none where `piece` is empty.
pub fn write_all<K: Sink>(out: &mut K, piece: &[u8]) -> Result<(), Failed>
    ensures ok { OnOk result (Grows (K.written out.old) (K.written out.new) piece.now) }
    ensures err { OnErr result (GrowsByPart (K.written out.old) (K.written out.new) piece.now) }
    ensures later { K.faults out.old ≤ K.faults out.new }
    ensures cause { OnErr result (Rose (K.faults out.old) (K.faults out.new)) }
{
    let mut done = 0;
    while done < piece.len() {
        done += out.write(&piece[done..])?;
    }
    Ok(())
}
