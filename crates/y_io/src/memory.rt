//! A source and a sink in memory.
ghost use Rattle.std.specs.Prelude.{ℕ, List, Option, Some, None, [], ◌≡◌, ◌≢◌, ◌<◌, ◌≤◌, ◌-◌, ◌↔◌, length, take, is_none, min, IfOk, OnOk, OnErr, IsErr, vec_len, vec_capacity};
ghost use Rattle.std.specs.BTreeMap.{get};
ghost use Rattle.y_io.specs.Outside.{Rose, Reads, Grows, Told};

use crate::failed::{Failed, count_fault};
use crate::file_name::FileName;
use crate::sink::Sink;
use crate::source::Source;
use std::alloc::{AllocError, Global};
use std::collections::BTreeMap;

/// Texts in memory, by name. A read fails exactly where no text has the name.
#[derive(Debug, Drop)]
pub struct MemorySource {
    alloc: Global,
    texts: BTreeMap<FileName, Vec<u8>>,
    faults: u64,
}

impl MemorySource {
    ghost use Rattle.y_io.specs.declared.file_name.FileName.{FileName};

    /// A source without texts. It takes no memory.
    pub fn new(alloc: Global) -> MemorySource
        ensures holds { (n : FileName) → ⟦<MemorySource as Source>⟧.holds result n ≡ None }
        ensures breaks { (n : FileName) (p : ℕ) →
            ⟦<MemorySource as Source>⟧.breaks result n p
            ≡ Some (is_none (⟦<MemorySource as Source>⟧.holds result n)) }
        ensures faults { ⟦<MemorySource as Source>⟧.faults result ≡ 0 }
    {
        MemorySource {
            alloc,
            texts: BTreeMap::new(alloc),
            faults: 0,
        }
    }

    /// Holds a copy of `bytes` under `name`, in place of the bytes that it had. It takes O(n + log m)
    /// steps for n bytes and m texts.
    pub fn add(&mut self, name: FileName, bytes: &[u8]) -> Result<(), AllocError>
        ensures ok { OnOk result (⟦<MemorySource as Source>⟧.holds self.new name ≡ Some bytes.now) }
        ensures others { (n : FileName) → n ≢ name →
            ⟦<MemorySource as Source>⟧.holds self.new n
            ≡ ⟦<MemorySource as Source>⟧.holds self.old n }
        ensures err { OnErr result ((n : FileName) →
            ⟦<MemorySource as Source>⟧.holds self.new n
            ≡ ⟦<MemorySource as Source>⟧.holds self.old n) }
        ensures breaks { (n : FileName) (p : ℕ) →
            ⟦<MemorySource as Source>⟧.breaks self.new n p
            ≡ Some (is_none (⟦<MemorySource as Source>⟧.holds self.new n)) }
        ensures faults { ⟦<MemorySource as Source>⟧.faults self.new ≡ ⟦<MemorySource as Source>⟧.faults self.old }
    {
        let copy = Vec::from_slice(self.alloc, bytes)?;
        self.texts.insert(name, copy)?;
        Ok(())
    }
}

/// Copies the bytes from `place` on to the front of `into`, as many as fit, and answers how many.
fn copy_from(bytes: &[u8], place: u64, into: &mut [u8]) -> usize
    requires { 0 < length into.old }
    ensures bound { result ≤ length into.new }
    ensures bytes { Reads (Some bytes.now) place (take result into.new) result }
{
    let start = usize::try_from(place)
        .unwrap_or(bytes.len())
        .min(bytes.len());
    let left = &bytes[start..];
    let count = left.len().min(into.len());
    into[..count].copy_from_slice(&left[..count]);
    count
}

impl Source for MemorySource {
    ghost use Rattle.std.specs.Option.{option_map};

    ghost holds = { λ s n. option_map (λ text. text.items) (get ⟦<FileName as Ord>⟧.cmp s.texts n) };

    ghost breaks = { λ s n p. Some (is_none (get ⟦<FileName as Ord>⟧.cmp s.texts n)) };

    ghost faults = { λ s. s.faults };

    fn read(&mut self, name: &FileName, place: u64, into: &mut [u8]) -> Result<usize, Failed> {
        let Some(text) = self.texts.get(name) else {
            return Err(count_fault(&mut self.faults));
        };
        Ok(copy_from(text, place, into))
    }
}

/// Bytes in memory, as many as there is room for. A write fails exactly where no room is left for a
/// piece that isn't empty, and else takes as many bytes as there is room for.
#[derive(Debug, Drop)]
pub struct MemorySink {
    bytes: Vec<u8>,
    room: usize,
    faults: u64,
    ghost within: { vec_len bytes ≤ room },
    ghost reserved: { room ≤ vec_capacity bytes },
}

impl MemorySink {
    ghost use Rattle.y_io.specs.Memory.{room_of};

    /// An empty sink with room for that many bytes, or the error where memory runs out.
    pub fn new(alloc: Global, room: usize) -> Result<MemorySink, AllocError>
        ensures empty { IfOk result (λ s. ⟦<MemorySink as Sink>⟧.written s ≡ Some []) }
        ensures room { IfOk result (λ s. room_of s ≡ room) }
        ensures faults { IfOk result (λ s. ⟦<MemorySink as Sink>⟧.faults s ≡ 0) }
    {
        let bytes = Vec::with_capacity(alloc, room)?;
        Ok(MemorySink {
            bytes,
            room,
            faults: 0,
        })
    }

    /// The bytes that were written.
    pub fn bytes(&self) -> &[u8]
        ensures { ⟦<MemorySink as Sink>⟧.written self.now ≡ Some result.now }
    {
        self.bytes.as_slice()
    }
}

impl Sink for MemorySink {
    ghost use Rattle.y_io.specs.Memory.{bytes_of, room_of};

    ghost written = { λ s. Some (bytes_of s) };

    ghost faults = { λ s. s.faults };

    fn write(&mut self, piece: &[u8]) -> Result<usize, Failed>
        ensures bound { IfOk result (λ n. n ≤ length piece.now) }
        ensures some { 0 < length piece.now → IfOk result (λ n. 0 < n) }
        ensures ok { IfOk result (λ n. Grows
            (⟦<MemorySink as Sink>⟧.written self.old)
            (⟦<MemorySink as Sink>⟧.written self.new)
            (take n piece.now)) }
        ensures err { OnErr result (
            ⟦<MemorySink as Sink>⟧.written self.new ≡ ⟦<MemorySink as Sink>⟧.written self.old) }

        ensures later { ⟦<MemorySink as Sink>⟧.faults self.old ≤ ⟦<MemorySink as Sink>⟧.faults self.new }
        ensures cause { OnErr result (Rose
            (⟦<MemorySink as Sink>⟧.faults self.old)
            (⟦<MemorySink as Sink>⟧.faults self.new)) }

        // It fails exactly where there is no room, and else takes all that there is room for.
        ensures full { IsErr result ↔
            (0 < length piece.now × (room_of self.old ≤ length (bytes_of self.old))) }
        ensures most { IfOk result (λ n.
            n ≡ min (length piece.now) (room_of self.old - length (bytes_of self.old))) }
        ensures room { room_of self.new ≡ room_of self.old }
    {
        let count = piece.len().min(self.room - self.bytes.len());
        let full = count == 0 && !piece.is_empty();
        if full || self.bytes.extend_from_slice(&piece[..count]).is_err() {
            return Err(count_fault(&mut self.faults));
        }
        Ok(count)
    }
}
