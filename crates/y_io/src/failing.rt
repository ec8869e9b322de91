//! A source and a sink that fail once, at a chosen place.
ghost use Rattle.std.specs.Prelude.{ℕ, Bool, List, Option, Some, None, true, ◌≡◌, ◌≢◌, ◌⊎◌, ◌<◌, ◌≤◌, ◌+◌, ◌↔◌, length, take, is_none, IfSome, IfOk, OnOk, OnErr, IsErr, if◌then◌else◌};
ghost use Rattle.y_io.specs.Outside.{Rose, Reads, Told, Grows};

use crate::failed::{Failed, count_fault};
use crate::file_name::FileName;
use crate::memory::{MemorySink, MemorySource};
use crate::sink::Sink;
use crate::source::Source;

/// The texts of a source in memory, with one fault. A read of the chosen text gives no bytes past the
/// chosen place, and one that begins there fails. After that one a read fails only where no text has
/// the name.
#[derive(Debug, Drop)]
pub struct FailingSource {
    inner: MemorySource,
    stop_name: FileName,
    stop_place: u64,
    stopped: bool,
    faults: u64,
}

impl FailingSource {
    ghost use Rattle.y_io.specs.declared.file_name.FileName.{FileName};

    /// A source of the texts of `inner` that is to fail at byte `stop_place` of `stop_name`.
    pub fn new(inner: MemorySource, stop_name: FileName, stop_place: u64) -> FailingSource
        ensures holds { (n : FileName) →
            ⟦<FailingSource as Source>⟧.holds result n ≡ ⟦<MemorySource as Source>⟧.holds inner n }
        ensures stop { ⟦<FailingSource as Source>⟧.breaks result stop_name stop_place ≡ Some true }
        ensures elsewhere { (n : FileName) (p : ℕ) → (n ≢ stop_name) ⊎ (p ≢ stop_place) →
            ⟦<FailingSource as Source>⟧.breaks result n p ≡ ⟦<MemorySource as Source>⟧.breaks inner n p }
        ensures faults { ⟦<FailingSource as Source>⟧.faults result ≡ 0 }
    {
        FailingSource {
            inner,
            stop_name,
            stop_place,
            stopped: false,
            faults: 0,
        }
    }
}

impl Source for FailingSource {
    ghost use Rattle.y_io.specs.declared.file_name.FileName.{FileName};
    ghost use Rattle.y_io.specs.Failing.{is_stop};

    ghost holds = { λ s n. ⟦<MemorySource as Source>⟧.holds s.inner n };

    ghost breaks = { λ s n p.
        if is_stop s n p then Some true else ⟦<MemorySource as Source>⟧.breaks s.inner n p };

    ghost faults = { λ s. s.faults };

    fn read(&mut self, name: &FileName, place: u64, into: &mut [u8]) -> Result<usize, Failed>
        requires { 0 < length into.old }
        ensures held { (n : FileName) →
            ⟦<FailingSource as Source>⟧.holds self.new n
            ≡ ⟦<FailingSource as Source>⟧.holds self.old n }
        ensures unbroken { OnOk result ((n : FileName) (p : ℕ) →
            ⟦<FailingSource as Source>⟧.breaks self.new n p
            ≡ ⟦<FailingSource as Source>⟧.breaks self.old n p) }
        ensures elsewhere { (n : FileName) (p : ℕ) → (n ≢ name.now) ⊎ (p ≢ place) →
            ⟦<FailingSource as Source>⟧.breaks self.new n p
            ≡ ⟦<FailingSource as Source>⟧.breaks self.old n p }

        ensures bound { IfOk result (λ n. n ≤ length into.new) }
        ensures bytes { IfOk result (λ n.
            Reads (⟦<FailingSource as Source>⟧.holds self.old name.now) place (take n into.new) n) }

        ensures later { ⟦<FailingSource as Source>⟧.faults self.old ≤ ⟦<FailingSource as Source>⟧.faults self.new }
        ensures cause { OnErr result (Rose
            (⟦<FailingSource as Source>⟧.faults self.old)
            (⟦<FailingSource as Source>⟧.faults self.new)) }
        ensures told { Told (⟦<FailingSource as Source>⟧.breaks self.old name.now place) result }

        // After a read that failed, one from that place fails only where no text has the name.
        ensures once { OnErr result (
            ⟦<FailingSource as Source>⟧.breaks self.new name.now place
            ≡ Some (is_none (⟦<FailingSource as Source>⟧.holds self.old name.now))) }

        // A read gives no byte at a place at which a read fails.
        ensures cut { IfOk result (λ n. (p : ℕ) → place ≤ p → p < place + n →
            ⟦<FailingSource as Source>⟧.breaks self.old name.now p ≢ Some true) }
    {
        let stops = !self.stopped && self.stop_name.is(name);
        if stops && place == self.stop_place {
            self.stopped = true;
            return Err(count_fault(&mut self.faults));
        }
        let mut room = into.len();
        if stops && place < self.stop_place {
            room = (room as u64).min(self.stop_place - place) as usize;
        }
        match self.inner.read(name, place, &mut into[..room]) {
            Ok(count) => Ok(count),
            Err(Failed) => Err(count_fault(&mut self.faults)),
        }
    }
}

/// A sink in memory with one fault. It takes no bytes past the chosen number in all, and a write of a
/// piece that isn't empty fails where there are that many. After that one it fails only where there is
/// no room.
#[derive(Debug, Drop)]
pub struct FailingSink {
    inner: MemorySink,
    stop: usize,
    stopped: bool,
    faults: u64,
}

impl FailingSink {
    ghost use Rattle.y_io.specs.Memory.{room_of};
    ghost use Rattle.y_io.specs.Failing.{limit_of, stop_of};

    /// A sink over `inner` that is to fail where it has `stop` bytes.
    pub fn new(inner: MemorySink, stop: usize) -> FailingSink
        ensures written { ⟦<FailingSink as Sink>⟧.written result ≡ ⟦<MemorySink as Sink>⟧.written inner }
        ensures limit { limit_of result ≡ room_of inner }
        ensures stop { stop_of result ≡ Some stop }
        ensures faults { ⟦<FailingSink as Sink>⟧.faults result ≡ 0 }
    {
        FailingSink {
            inner,
            stop,
            stopped: false,
            faults: 0,
        }
    }

    /// The bytes that were written.
    pub fn bytes(&self) -> &[u8]
        ensures { ⟦<FailingSink as Sink>⟧.written self.now ≡ Some result.now }
    {
        self.inner.bytes()
    }
}

impl Sink for FailingSink {
    ghost use Rattle.y_io.specs.Failing.{count_of, limit_of, stop_of};

    ghost written = { λ s. ⟦<MemorySink as Sink>⟧.written s.inner };

    ghost faults = { λ s. s.faults };

    fn write(&mut self, piece: &[u8]) -> Result<usize, Failed>
        ensures bound { IfOk result (λ n. n ≤ length piece.now) }
        ensures some { 0 < length piece.now → IfOk result (λ n. 0 < n) }
        ensures ok { IfOk result (λ n. Grows
            (⟦<FailingSink as Sink>⟧.written self.old)
            (⟦<FailingSink as Sink>⟧.written self.new)
            (take n piece.now)) }
        ensures err { OnErr result (
            ⟦<FailingSink as Sink>⟧.written self.new ≡ ⟦<FailingSink as Sink>⟧.written self.old) }

        ensures later { ⟦<FailingSink as Sink>⟧.faults self.old ≤ ⟦<FailingSink as Sink>⟧.faults self.new }
        ensures cause { OnErr result (Rose
            (⟦<FailingSink as Sink>⟧.faults self.old)
            (⟦<FailingSink as Sink>⟧.faults self.new)) }

        // It fails exactly at its stop, and where there is no room.
        ensures fails { IsErr result ↔ (0 < length piece.now
            × ((stop_of self.old ≡ Some (count_of self.old)) ⊎ (limit_of self.old ≤ count_of self.old))) }

        // A failure at the stop takes the stop away. Nothing else does.
        ensures once { OnErr result (stop_of self.old ≡ Some (count_of self.old) → stop_of self.new ≡ None) }
        ensures stays { stop_of self.old ≢ Some (count_of self.old) → stop_of self.new ≡ stop_of self.old }
        ensures stays_ok { OnOk result (stop_of self.new ≡ stop_of self.old) }
        ensures limit { limit_of self.new ≡ limit_of self.old }

        // It takes no byte past its stop.
        ensures cut { IfOk result (λ n. IfSome (stop_of self.old) (λ stop.
            count_of self.old ≤ stop → count_of self.old + n ≤ stop)) }
    {
        let done = self.inner.bytes().len();
        if !self.stopped && done == self.stop && !piece.is_empty() {
            self.stopped = true;
            return Err(count_fault(&mut self.faults));
        }
        let mut most = piece.len();
        if !self.stopped && done < self.stop {
            most = most.min(self.stop - done);
        }
        match self.inner.write(&piece[..most]) {
            Ok(count) => Ok(count),
            Err(Failed) => Err(count_fault(&mut self.faults)),
        }
    }
}
