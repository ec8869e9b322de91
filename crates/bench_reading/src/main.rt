//! Reads a made text of declarations and assertions. The words are how many commands the text has, how
//! many bytes a piece has, and how often the text is fed to the one reader. It prints how many bytes the
//! text has, and how many commands were read.
#![tactic(auto)]

ghost use Rattle.std.specs.Prelude.{◌≡◌, ◌<◌, ◌≤◌, ◌+◌, ◌^◌, length, false, OnOk};

use std::alloc::{AllocError, Global};
use std::{env, io};
use yices_text::Reader;

/// Writes the command with that number: a declaration, or an assertion over names that were declared.
fn write_command(number: usize, text: &mut String) -> Result<(), AllocError> {
    let name = number / 2;
    if number % 2 == 0 {
        return write!(text, "(define p{name}::bool)\n");
    }
    let before = name / 2;
    write!(text, "(assert (or (not p{name}) (and p{before} true)))\n")
}

/// The text of so many commands.
fn text_of(alloc: Global, commands: usize) -> Result<String, AllocError> {
    let mut text = String::new(alloc);
    for number in 0..commands {
        write_command(number, &mut text)?;
    }
    Ok(text)
}

/// Lets a value go.
fn forget<T: Drop>(item: T) {
    let _ = item;
}

/// Takes the commands that are whole. The answer is how many they are.
fn take_all(reader: &mut Reader) -> u64
    ensures fed { reader.new.fed ≡ reader.old.fed }
    ensures finished { reader.new.finished ≡ reader.old.finished }
{
    let mut taken = 0u64;
    for _ in 0..u64::MAX {
        match reader.next() {
            Ok(Some(command)) => forget(command),
            Ok(None) => return taken,
            Err(_) => return taken,
        }
        taken = taken.saturating_add(1);
    }
    taken
}

/// Feeds a text in pieces of so many bytes, and takes the commands that are whole behind each. The
/// answer is how many they are.
fn read_text(reader: &mut Reader, text: &[u8], size: usize) -> Result<u64, AllocError>
    requires unfinished { reader.old.finished ≡ false }
    requires small { length reader.old.fed + length text.now ≤ 2 ^ 63 }
    requires some { 0 < size }
    ensures unfinished { reader.new.finished ≡ false }
    ensures fed { OnOk result (length reader.new.fed ≡ length reader.old.fed + length text.now) }
{
    let mut taken = 0u64;
    let mut place = 0;
    'pieces: while place < text.len() {
        let end = text.len().min(place.saturating_add(size));
        reader.feed(&text[place..end])?;
        taken = taken.saturating_add(take_all(reader));
        place = end;
    }
    Ok(taken)
}

/// Feeds a text so often to one reader. The answer is how many commands were read.
fn read_often(alloc: Global, text: &[u8], size: usize, times: usize) -> Result<u64, AllocError>
    requires short { length text.now ≤ 2 ^ 30 }
    requires some { 0 < size }
    requires few { times ≤ 2 ^ 30 }
{
    let mut reader = Reader::new(alloc);
    let mut taken = 0u64;
    for time in 0..times {
        taken = taken.saturating_add(read_text(&mut reader, text, size)?);
    }
    reader.finish();
    Ok(taken.saturating_add(take_all(&mut reader)))
}

fn main(rt: HostRuntime) -> io::Result<()> {
    let mut numbers = [0usize; 3];
    let mut place = 0;
    for word in env::args(&rt)?.skip(1) {
        if place < 3 {
            numbers[place] = word.as_str().parse::<usize>().unwrap_or(0);
            place += 1;
        }
    }
    let [commands, size, times] = numbers;
    let text = text_of(rt.alloc(), commands)?;
    let text = text.as_bytes();
    if size == 0 || text.len() > 1 << 30 || times > 1 << 30 {
        println!(rt; "the numbers are out of range")?;
        return Ok(());
    }
    let taken = read_often(rt.alloc(), text, size, times)?;
    println!(rt; "{} {taken}", text.len())?;
    Ok(())
}
