//! How the program ends.

ghost use Rattle.std.specs.Prelude.{◌≡◌, IfOk, string_bytes};
ghost use Rattle.yices_cli.specs.Exits.{status_of, line_of, kind_text};
ghost use Rattle.yices_cli.specs.declared.exit.Exit.TheVariants.{Refused, Syntax, TooLong};

use std::alloc::{AllocError, Global};
use yices_session::Refusal;
use yices_text::{Place, SyntaxError, SyntaxKind};

/// Which limit was passed.
#[derive(Clone, Copy, Debug, PartialEq, Eq)]
pub enum LongKind {
    /// More bytes than a text may have.
    Bytes,
    /// More open brackets than there may be, by the bracket at that place.
    Nesting(Place),
    /// A longer reply than there may be, to the call at that place.
    Reply(Place),
}

/// Why the program ended.
#[derive(Debug, Drop)]
pub enum Exit {
    /// The input was read to its end or to `(exit)`, and every reply was written.
    Done,
    /// Memory ran out.
    NoMemory,
    /// The text goes wrong.
    Syntax(SyntaxError),
    /// A read of the input failed.
    ReadFault,
    /// The word with that number, counted from 1, is at fault.
    Usage(usize),
    /// A command was refused for a cause at that place.
    Refused(Place, Refusal),
    /// The output failed, or the line of another cause could not be written.
    WriteFault,
    /// A limit of the text was passed.
    TooLong(LongKind),
}

impl Exit {
    /// The status of the process.
    pub fn status(&self) -> u8
        ensures { result ≡ status_of self.now }
    {
        match self {
            Exit::Done => 0,
            Exit::NoMemory => 16,
            Exit::Syntax(_) => 17,
            Exit::ReadFault => 18,
            Exit::Usage(_) => 19,
            Exit::Refused(_, _) => 20,
            Exit::WriteFault => 22,
            Exit::TooLong(_) => 23,
        }
    }

    /// The line on errors, with its end; empty where all is done.
    pub fn line(&self, alloc: Global) -> Result<String, AllocError>
        ensures { IfOk result (λ line. string_bytes line ≡ line_of self.now) }
    {
        match self {
            Exit::Done => Ok(String::new(alloc)),
            Exit::NoMemory => String::from_str(alloc, "yices: out of memory\n"),
            Exit::Syntax(error) => syntax_line(alloc, *error),
            Exit::ReadFault => String::from_str(alloc, "yices: <stdin>: read fault\n"),
            Exit::Usage(word) => format!(in alloc; "yices: usage error at word {word}\n"),
            Exit::Refused(place, refusal) => refused_line(alloc, *place, refusal),
            Exit::WriteFault => String::from_str(alloc, "yices: write fault\n"),
            Exit::TooLong(kind) => long_line(alloc, *kind),
        }
    }
}

// The name of a kind of syntax fault.
fn kind_name(kind: SyntaxKind) -> &'static str
    ensures { result.now ≡ kind_text kind }
{
    match kind {
        SyntaxKind::BadByte => "BadByte",
        SyntaxKind::BadLiteral => "BadLiteral",
        SyntaxKind::Unexpected => "Unexpected",
        SyntaxKind::EndOfInput => "EndOfInput",
    }
}

// The line of a syntax fault.
fn syntax_line(alloc: Global, error: SyntaxError) -> Result<String, AllocError>
    ensures { IfOk result (λ line. string_bytes line ≡ line_of (Syntax error)) }
{
    let Place { line, column } = error.place;
    let kind = kind_name(error.kind);
    format!(in alloc; "yices: <stdin>:{line}:{column}: syntax {kind}\n")
}

// The line of a limit that was passed.
fn long_line(alloc: Global, kind: LongKind) -> Result<String, AllocError>
    ensures { IfOk result (λ line. string_bytes line ≡ line_of (TooLong kind)) }
{
    match kind {
        LongKind::Bytes => String::from_str(alloc, "yices: too long: bytes\n"),
        LongKind::Nesting(Place { line, column }) => format!(in alloc;
            "yices: <stdin>:{line}:{column}: too long: nesting\n"
        ),
        LongKind::Reply(Place { line, column }) => format!(in alloc;
            "yices: <stdin>:{line}:{column}: too long: reply\n"
        ),
    }
}

// The line of a refusal.
fn refused_line(alloc: Global, place: Place, refusal: &Refusal) -> Result<String, AllocError>
    ensures { IfOk result (λ line. string_bytes line ≡ line_of (Refused place refusal.now)) }
{
    let Place { line, column } = place;
    match refusal {
        Refusal::UnknownName(name) => {
            let name = name.as_str();
            format!(in alloc; "yices: <stdin>:{line}:{column}: refused 1 UnknownName {name}\n")
        }
        Refusal::NameInUse(name) => {
            let name = name.as_str();
            format!(in alloc; "yices: <stdin>:{line}:{column}: refused 3 NameInUse {name}\n")
        }
        Refusal::BoundTwice(name) => {
            let name = name.as_str();
            format!(in alloc; "yices: <stdin>:{line}:{column}: refused 4 BoundTwice {name}\n")
        }
        Refusal::WrongType {
            place: argument,
            wanted,
            found,
        } => {
            let wanted = wanted.as_str();
            let found = found.as_str();
            format!(in alloc;
                "yices: <stdin>:{line}:{column}: refused 8 WrongType {argument} {wanted} {found}\n"
            )
        }
        Refusal::BadArity(count) => format!(in alloc;
            "yices: <stdin>:{line}:{column}: refused 6 BadArity {count}\n"
        ),
        Refusal::BottomLevel => format!(in alloc;
            "yices: <stdin>:{line}:{column}: refused 15 BottomLevel\n"
        ),
        Refusal::TooDeep => format!(in alloc;
            "yices: <stdin>:{line}:{column}: refused 16 TooDeep\n"
        ),
        Refusal::TableFull => format!(in alloc;
            "yices: <stdin>:{line}:{column}: refused 19 TableFull\n"
        ),
        Refusal::NotBuilt => format!(in alloc;
            "yices: <stdin>:{line}:{column}: refused 21 NotBuilt\n"
        ),
    }
}
