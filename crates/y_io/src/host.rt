//! The host's files and standard streams. Nothing is told of their bytes.
ghost use Rattle.std.specs.Prelude.{None, ◌≡◌, ◌≤◌, length, IfOk};

use crate::failed::{Failed, count_fault};
use crate::file_name::FileName;
use crate::sink::Sink;
use crate::source::Source;
use std::io::{Read, Seek, SeekFrom, Stderr, Stdout};
use std::rt::Files;
use std::{fs, io};

/// Files and standard input, by a runtime. Each read of a file opens it, goes to the place and reads
/// once. Standard input is read in order, whatever the place. What can't be opened, sought or read is
/// a fault.
#[derive(Drop)]
pub struct StdSource<R: Files + Input> {
    rt: R,
    input: R::Reader,
    faults: u64,
}

impl<R: Files + Input> StdSource<R> {
    /// A source over the files and the standard input of `rt`.
    pub fn new(rt: R) -> StdSource<R>
        ensures { ⟦<StdSource<R> as Source>⟧.faults result ≡ 0 }
    {
        let input = rt.reader();
        StdSource {
            rt,
            input,
            faults: 0,
        }
    }

    /// Reads once from the start of what is next of the text.
    fn read_once(&mut self, name: &FileName, place: u64, into: &mut [u8]) -> io::Result<usize>
        ensures bound { IfOk result (λ n. n ≤ length into.new) }
        ensures faults { self.new.faults ≡ self.old.faults }
    {
        match name {
            FileName::Input => self.input.read(into),
            FileName::Named(path) => {
                let mut file = fs::open(&self.rt, path.as_str())?;
                file.seek(SeekFrom::Start(place))?;
                file.read(into)
            }
        }
    }
}

impl<R: Files + Input> Source for StdSource<R> {
    ghost holds = { λ s n. None };

    ghost breaks = { λ s n p. None };

    ghost faults = { λ s. s.faults };

    fn read(&mut self, name: &FileName, place: u64, into: &mut [u8]) -> Result<usize, Failed> {
        match self.read_once(name, place, into) {
            Ok(count) => Ok(count),
            Err(_) => Err(count_fault(&mut self.faults)),
        }
    }
}

#[derive(Clone, Copy)]
enum Stream {
    Output(Stdout),
    Errors(Stderr),
}

/// Standard output or standard error. Each write hands its piece to the system once.
#[derive(Drop)]
pub struct StdSink {
    stream: Stream,
    faults: u64,
}

impl StdSink {
    /// The standard output.
    pub fn output(stdout: Stdout) -> StdSink
        ensures { ⟦<StdSink as Sink>⟧.faults result ≡ 0 }
    {
        StdSink {
            stream: Stream::Output(stdout),
            faults: 0,
        }
    }

    /// The standard error.
    pub fn errors(stderr: Stderr) -> StdSink
        ensures { ⟦<StdSink as Sink>⟧.faults result ≡ 0 }
    {
        StdSink {
            stream: Stream::Errors(stderr),
            faults: 0,
        }
    }
}

impl Sink for StdSink {
    ghost written = { λ s. None };

    ghost faults = { λ s. s.faults };

    fn write(&mut self, piece: &[u8]) -> Result<usize, Failed> {
        if piece.is_empty() {
            return Ok(0);
        }
        let result = match &self.stream {
            Stream::Output(stdout) => stdout.write_some(piece),
            Stream::Errors(stderr) => stderr.write_some(piece),
        };
        match result {
            Ok(count) if count > 0 => Ok(count),
            _ => Err(count_fault(&mut self.faults)),
        }
    }
}
