//! What texts are read from.
ghost use Rattle.std.specs.Prelude.{ℕ, Bool, List, Option, ◌≡◌, ◌≢◌, ◌⊎◌, ◌<◌, ◌≤◌, length, take, IfOk, OnOk, OnErr};
ghost use Rattle.y_io.specs.Outside.{Rose, Reads, Told};
ghost use Rattle.y_io.specs.declared.file_name.FileName.{FileName};

use crate::failed::Failed;
use crate::file_name::FileName;

/// Texts that can be read by name, in pieces from any place on.
pub trait Source {
    /// The bytes of a text, where they are told.
    ghost holds: { Self → FileName → Option (List ℕ) };

    /// Whether a read of a text that begins at a place fails, where it is told.
    ghost breaks: { Self → FileName → ℕ → Option Bool };

    /// How often a read has failed. At the last value of 64 bits it stays.
    ghost faults: { Self → ℕ };

    /// Reads a piece of the text `name`, from byte `place` on, to the front of `into`, and answers
    /// how many bytes it is. 0 means that the text ends at `place` or before. The piece may be
    /// shorter than what is left of the text and fits.
    fn read(&mut self, name: &FileName, place: u64, into: &mut [u8]) -> Result<usize, Failed>
        requires { 0 < length into.old }

        // A read changes no text, and only a read that fails changes whether one fails there.
        ensures held { (n : FileName) → holds self.new n ≡ holds self.old n }
        ensures unbroken { OnOk result ((n : FileName) (p : ℕ) → breaks self.new n p ≡ breaks self.old n p) }
        ensures elsewhere { (n : FileName) (p : ℕ) → (n ≢ name.now) ⊎ (p ≢ place) → breaks self.new n p ≡ breaks self.old n p }

        ensures bound { IfOk result (λ n. n ≤ length into.new) }
        ensures bytes { IfOk result (λ n. Reads (holds self.old name.now) place (take n into.new) n) }

        // When it fails.
        ensures later { faults self.old ≤ faults self.new }
        ensures cause { OnErr result (Rose (faults self.old) (faults self.new)) }
        ensures told { Told (breaks self.old name.now place) result };
}
