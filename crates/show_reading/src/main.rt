//! Shows what a reader makes of texts. Each line of standard input is a text, in which `~` stands for the
//! end of a line; it is read in pieces of one, two and seven bytes. For each text the commands are printed
//! with all that they hold and its places, and the fault behind them, or that the pieces don't agree.
#![tactic(auto)]

mod show;

ghost use Rattle.std.specs.Prelude.{◌≡◌, ◌<◌, ◌≤◌, length, false};

use show::show_command;
use std::alloc::{AllocError, Global};
use std::io;
use yices_text::{Command, ReadError, Reader};

/// Lets a value go.
fn forget<T: Drop>(item: T) {
    let _ = item;
}

/// Writes a command that was answered.
fn show_taken(alloc: Global, command: Command, out: &mut String) -> Result<(), AllocError> {
    let written = show_command(alloc, &command, out);
    forget(command);
    written
}

/// Writes the commands that are answered and the fault behind them, and says whether there is one.
fn drain(alloc: Global, reader: &mut Reader, out: &mut String) -> Result<bool, AllocError>
    ensures fed { reader.new.fed ≡ reader.old.fed }
    ensures finished { reader.new.finished ≡ reader.old.finished }
{
    for _ in 0..100 {
        match reader.next() {
            Ok(Some(command)) => show_taken(alloc, command, out)?,
            Ok(None) => return Ok(false),
            Err(ReadError::NoMemory) => return Err(AllocError),
            Err(error) => {
                write!(out, " ! {error}")?;
                return Ok(true);
            }
        }
    }
    Ok(false)
}

/// Writes what the text gives, asked for behind each piece of so many bytes, up to a fault.
fn give(alloc: Global, text: &[u8], size: usize, out: &mut String) -> Result<(), AllocError>
    requires small { length text.now < 100000 }
    requires some { 0 < size }
    requires few { size < 10 }
{
    let mut reader = Reader::new(alloc);
    let mut failed = false;
    for i in 0..text.len() {
        if i % size == 0 {
            let end = text.len().min(i + size);
            reader.feed(&text[i..end])?;
            if !failed {
                failed = drain(alloc, &mut reader, out)?;
            }
        }
    }
    reader.finish();
    if !failed {
        drain(alloc, &mut reader, out)?;
    }
    Ok(())
}

/// The bytes of a text with ends of lines in place of `~`.
fn unfolded(alloc: Global, line: &str) -> Result<Vec<u8>, AllocError> {
    let mut text = Vec::new(alloc);
    for byte in line.as_bytes() {
        text.push(if *byte == b'~' { b'\n' } else { *byte })?;
    }
    Ok(text)
}

/// What a text gives in pieces of each size.
fn shown(alloc: Global, line: &str) -> Result<String, AllocError> {
    let text = unfolded(alloc, line)?;
    let mut first = String::new(alloc);
    if 100000 <= text.len() {
        return Ok(first);
    }
    give(alloc, text.as_slice(), 1, &mut first)?;
    for size in [2usize, 7] {
        let mut other = String::new(alloc);
        if 0 < size && size < 10 {
            give(alloc, text.as_slice(), size, &mut other)?;
        }
        if other.as_str() != first.as_str() {
            write!(first, " pieces of {size} differ")?;
        }
    }
    Ok(first)
}

fn main(rt: HostRuntime) -> io::Result<()> {
    for line in rt.lines(rt.alloc()) {
        let out = shown(rt.alloc(), line?.as_str())?;
        println!(rt; "{out}")?;
    }
    Ok(())
}
