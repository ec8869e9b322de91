//! Whole runs over memory: what is written and the status, for texts with known answers.
ghost use Rattle.std.specs.Prelude.{◌≡◌, ◌<◌};

mod calls;
mod expressions;
mod faults;
mod scripts;

use crate::run::run;
use crate::tests::calls::{CALLS, CHECKS};
use crate::tests::expressions::{ASSUMPTIONS, KEPT, LETS, OPERATORS, REFUSED, UNTURNED};
use crate::tests::faults::FAULTS;
use crate::tests::scripts::SCRIPTS;
use std::alloc::{AllocError, Global};
use std::process::Abort;
use std::test::Fail;
use y_io::{Failed, FailingSink, FailingSource, FileName, MemorySink, MemorySource, Source};

/// A text with its status, its replies, and what its line on errors says of standard input; nothing where there is no line.
pub type Row = (&'static str, u8, &'static str, &'static str);

/// Gives at most so many bytes at a time.
#[derive(Drop)]
struct Short {
    inner: FailingSource,
    most: usize,
    ghost some: { 0 < most },
}

impl Source for Short {
    ghost holds = { λ s. ⟦<FailingSource as Source>⟧.holds s.inner };

    ghost breaks = { λ s. ⟦<FailingSource as Source>⟧.breaks s.inner };

    ghost faults = { λ s. ⟦<FailingSource as Source>⟧.faults s.inner };

    fn read(&mut self, name: &FileName, place: u64, into: &mut [u8]) -> Result<usize, Failed> {
        let most = into.len().min(self.most);
        self.inner.read(name, place, &mut into[..most])
    }
}

// The words as they come to the program.
fn words_of(alloc: Global, texts: &[&str]) -> Result<Vec<String>, AllocError> {
    let mut words = Vec::new(alloc);
    for text in texts {
        words.push(String::from_str(alloc, text)?)?;
    }
    Ok(words)
}

// Runs a text that breaks at a place, in pieces of each size.
fn expect_run<R: Abort + AllocGlobal>(
    rt: &R,
    words: &Vec<String>,
    text: &str,
    stop: u64,
    status: u8,
    replies: &str,
    line: &str,
) -> Result<(), Fail> {
    for most in [5000, 1, 7] {
        let mut memory = MemorySource::new(rt.alloc());
        memory.add(FileName::Input, text.as_bytes())?;
        let mut source = Short {
            inner: FailingSource::new(memory, FileName::Input, stop),
            most,
        };
        let mut out = MemorySink::new(rt.alloc(), 1000)?;
        let mut errors = MemorySink::new(rt.alloc(), 300)?;
        let exit = run(rt.alloc(), words, &mut source, &mut out, &mut errors);
        assert_eq!(rt;
            errors.bytes(),
            line.as_bytes(),
            "{text} in pieces of {most}"
        );
        assert_eq!(rt;
            out.bytes(),
            replies.as_bytes(),
            "{text} in pieces of {most}"
        );
        assert_eq!(rt; exit.status(), status, "{text} in pieces of {most}");
    }
    Ok(())
}

// The line on errors that says this of standard input.
fn line_of<R: Abort + AllocGlobal>(rt: &R, said: &str) -> Result<String, Fail> {
    if said.is_empty() {
        return Ok(String::new(rt.alloc()));
    }
    Ok(format!(in rt.alloc(); "yices: <stdin>:{said}\n")?)
}

// Runs the texts of a table.
fn expect_rows<R: Abort + AllocGlobal>(rt: &R, words: &[&str], rows: &[Row]) -> Result<(), Fail> {
    let words = words_of(rt.alloc(), words)?;
    for (text, status, replies, said) in rows {
        let line = line_of(rt, said)?;
        expect_run(rt, &words, text, 1000000, *status, replies, line.as_str())?;
    }
    Ok(())
}

#[test]
fn faults_have_their_places(rt: HostRuntime) -> Result<(), Fail> {
    expect_rows(&rt, &[], &FAULTS)
}

#[test]
fn scripts_have_their_replies(rt: HostRuntime) -> Result<(), Fail> {
    expect_rows(&rt, &[], &SCRIPTS)
}

#[test]
fn operators_have_their_values(rt: HostRuntime) -> Result<(), Fail> {
    expect_rows(&rt, &[], &OPERATORS)
}

#[test]
fn lets_bind_side_by_side(rt: HostRuntime) -> Result<(), Fail> {
    expect_rows(&rt, &[], &LETS)
}

#[test]
fn assumptions_have_their_cores(rt: HostRuntime) -> Result<(), Fail> {
    expect_rows(&rt, &[], &ASSUMPTIONS)
}

#[test]
fn cores_and_models_are_kept(rt: HostRuntime) -> Result<(), Fail> {
    expect_rows(&rt, &[], &KEPT)
}

#[test]
fn causes_have_their_places(rt: HostRuntime) -> Result<(), Fail> {
    expect_rows(&rt, &[], &REFUSED)
}

#[test]
fn turns_are_limited(rt: HostRuntime) -> Result<(), Fail> {
    expect_rows(&rt, &["--turns=0"], &UNTURNED)
}

#[test]
fn calls_have_their_replies(rt: HostRuntime) -> Result<(), Fail> {
    expect_rows(&rt, &["--calls"], &CALLS)
}

#[test]
fn checks_have_their_replies(rt: HostRuntime) -> Result<(), Fail> {
    expect_rows(&rt, &["--calls"], &CHECKS)
}

/// A text, the place where it breaks, its status, its replies and its line on errors.
type Broken = (&'static str, u64, u8, &'static str, &'static str);

/// Texts of commands.
const BROKEN: [Broken; 10] = [
    ("", 0, 18, "", "yices: <stdin>: read fault\n"),
    ("(check)", 0, 18, "", "yices: <stdin>: read fault\n"),
    ("(check)", 5, 18, "", "yices: <stdin>: read fault\n"),
    ("(check)", 7, 18, "sat\n", "yices: <stdin>: read fault\n"),
    (
        "(check)(check)",
        10,
        18,
        "sat\n",
        "yices: <stdin>: read fault\n",
    ),
    (
        "(echo \"a\\n\")(echo \"b\\n\")(check)",
        24,
        18,
        "a\nb\n",
        "yices: <stdin>: read fault\n",
    ),
    (
        "(define p::bool)",
        10,
        18,
        "",
        "yices: <stdin>: read fault\n",
    ),
    ("(check)(exit)(check)", 13, 0, "sat\n", ""),
    (
        "(check))(check)",
        8,
        17,
        "sat\n",
        "yices: <stdin>:1:8: syntax Unexpected\n",
    ),
    (
        "(check)(assert q)(check)",
        17,
        20,
        "sat\n",
        "yices: <stdin>:1:16: refused 1 UnknownName q\n",
    ),
];

/// Scripts of calls: of the line that breaks off a fault is told, but its last word isn't judged.
const BROKEN_CALLS: [Broken; 12] = [
    ("num_terms\n", 0, 18, "", "yices: <stdin>: read fault\n"),
    ("num_terms\n", 9, 18, "", "yices: <stdin>: read fault\n"),
    (
        "num_terms\n",
        10,
        18,
        "#1 2\n",
        "yices: <stdin>: read fault\n",
    ),
    (
        "num_terms\nnum_types\n",
        15,
        18,
        "#1 2\n",
        "yices: <stdin>: read fault\n",
    ),
    (
        "num_terms\nxyz\n",
        13,
        18,
        "#1 2\n",
        "yices: <stdin>: read fault\n",
    ),
    (
        "num_terms\nxyz \n",
        14,
        17,
        "#1 2\n",
        "yices: <stdin>:2:1: syntax Unexpected\n",
    ),
    ("not #1", 6, 18, "", "yices: <stdin>: read fault\n"),
    (
        "get_term_by_name \"a",
        19,
        18,
        "",
        "yices: <stdin>: read fault\n",
    ),
    (
        "get_term_by_name \"a\u{2}",
        20,
        17,
        "",
        "yices: <stdin>:1:20: syntax BadByte\n",
    ),
    ("real_type #1", 9, 18, "", "yices: <stdin>: read fault\n"),
    (
        "real_type #1",
        10,
        20,
        "",
        "yices: <stdin>:1:1: refused 21 NotBuilt\n",
    ),
    (
        "not #1\nnot\n",
        11,
        17,
        "#1 refused NoResult 1\n",
        "yices: <stdin>:2:4: syntax Unexpected\n",
    ),
];

// Runs the texts of a table that break.
fn expect_broken<R: Abort + AllocGlobal>(
    rt: &R,
    words: &[&str],
    rows: &[Broken],
) -> Result<(), Fail> {
    let words = words_of(rt.alloc(), words)?;
    for (text, stop, status, replies, line) in rows {
        expect_run(rt, &words, text, *stop, *status, replies, line)?;
    }
    Ok(())
}

#[test]
fn a_read_fails(rt: HostRuntime) -> Result<(), Fail> {
    expect_broken(&rt, &[], &BROKEN)?;
    expect_broken(&rt, &["--calls"], &BROKEN_CALLS)
}

#[test]
fn open_brackets_are_limited(rt: HostRuntime) -> Result<(), Fail> {
    let words = Vec::new(rt.alloc());
    for (count, status, line) in [
        (4095, 17, "yices: <stdin>:1:20484: syntax EndOfInput\n"),
        (4096, 23, "yices: <stdin>:1:20484: too long: nesting\n"),
    ] {
        let mut text = String::from_str(rt.alloc(), "(assert ")?;
        for _ in 0..count {
            text.push_str("(not ")?;
        }
        expect_run(&rt, &words, text.as_str(), 1000000, status, "", line)?;
    }
    Ok(())
}

/// The words, with the status and the line on errors, over no input.
type Words = (&'static [&'static str], u8, &'static str);

/// Words of modes, and words that are none.
const WORDS: [Words; 13] = [
    (&[], 0, ""),
    (&["--calls"], 0, ""),
    (
        &["--calls", "--turns=3"],
        19,
        "yices: usage error at word 2\n",
    ),
    (
        &["--calls", "--calls"],
        19,
        "yices: usage error at word 2\n",
    ),
    (&["--calls", ""], 19, "yices: usage error at word 2\n"),
    (&["--calls", "a", "b"], 19, "yices: usage error at word 2\n"),
    (&["a", "--calls"], 19, "yices: usage error at word 1\n"),
    (&["--rounds=3"], 19, "yices: usage error at word 1\n"),
    (&["--call"], 19, "yices: usage error at word 1\n"),
    (&["--calls "], 19, "yices: usage error at word 1\n"),
    (&["--calls=1"], 19, "yices: usage error at word 1\n"),
    (&["-"], 19, "yices: usage error at word 1\n"),
    (&[""], 19, "yices: usage error at word 1\n"),
];

/// Limits of turns.
const LIMITS: [Words; 17] = [
    (&["--turns=7"], 0, ""),
    (&["--turns=007"], 0, ""),
    (&["--turns=18446744073709551615"], 0, ""),
    (&["--turns", "7"], 0, ""),
    (&["--turns"], 19, "yices: usage error at word 2\n"),
    (&["--turns", ""], 19, "yices: usage error at word 2\n"),
    (&["--turns", "x"], 19, "yices: usage error at word 2\n"),
    (&["--turns", "+7"], 19, "yices: usage error at word 2\n"),
    (
        &["--turns", "18446744073709551616"],
        19,
        "yices: usage error at word 2\n",
    ),
    (&["--turns", "7", "y"], 19, "yices: usage error at word 3\n"),
    (&["--turns=7", "y"], 19, "yices: usage error at word 2\n"),
    (&["--turns="], 19, "yices: usage error at word 1\n"),
    (&["--turns=", "7"], 19, "yices: usage error at word 1\n"),
    (&["--turns=7x"], 19, "yices: usage error at word 1\n"),
    (
        &["--turns=18446744073709551616"],
        19,
        "yices: usage error at word 1\n",
    ),
    (&["--turns7"], 19, "yices: usage error at word 1\n"),
    (&["--calls", "y"], 19, "yices: usage error at word 2\n"),
];

// Runs the program with the words of a table, over no input.
fn expect_words<R: Abort + AllocGlobal>(rt: &R, rows: &[Words]) -> Result<(), Fail> {
    for (texts, status, line) in rows {
        let words = words_of(rt.alloc(), texts)?;
        expect_run(rt, &words, "", 1000000, *status, "", line)?;
    }
    Ok(())
}

#[test]
fn a_word_is_at_fault(rt: HostRuntime) -> Result<(), Fail> {
    expect_words(&rt, &WORDS)
}

#[test]
fn a_limit_is_at_fault(rt: HostRuntime) -> Result<(), Fail> {
    expect_words(&rt, &LIMITS)
}

/// The words, a text, how much the output and errors take, and what they hold in the end.
const CUT: [(
    &'static [&'static str],
    &'static str,
    usize,
    usize,
    &'static str,
    &'static str,
); 7] = [
    (
        &[],
        "(define p::bool)(assert p)(check)(show-model)",
        2,
        200,
        "sa",
        "yices: write fault\n",
    ),
    (
        &[],
        "(check)(check)",
        6,
        200,
        "sat\nsa",
        "yices: write fault\n",
    ),
    (&[], "(check)(assert q)", 200, 9, "sat\n", "yices: <s"),
    (&[], "(check)(check", 200, 0, "sat\n", ""),
    (
        &["--calls"],
        "num_terms\nnum_types\n",
        3,
        200,
        "#1 ",
        "yices: write fault\n",
    ),
    (
        &["--calls"],
        "num_terms\nnum_types",
        11,
        200,
        "#1 2\n#2 130",
        "yices: write fault\n",
    ),
    (
        &["--calls"],
        "num_terms\nx\nnum_types\n",
        200,
        9,
        "#1 2\n",
        "yices: <s",
    ),
];

#[test]
fn a_write_fails(rt: HostRuntime) -> Result<(), Fail> {
    for (texts, text, room, lines, replies, line) in &CUT {
        let words = words_of(rt.alloc(), texts)?;
        let mut source = MemorySource::new(rt.alloc());
        source.add(FileName::Input, text.as_bytes())?;
        let mut out = FailingSink::new(MemorySink::new(rt.alloc(), 300)?, *room);
        let mut errors = FailingSink::new(MemorySink::new(rt.alloc(), 300)?, *lines);
        let exit = run(rt.alloc(), &words, &mut source, &mut out, &mut errors);
        assert_eq!(rt; out.bytes(), replies.as_bytes(), "{text}");
        assert_eq!(rt; errors.bytes(), line.as_bytes(), "{text}");
        assert_eq!(rt; exit.status(), 22, "{text}");
    }
    Ok(())
}
