//! What a line of a script says.
use crate::words::CallWord;
use y_io::Text;

/// How a line ends.
#[derive(Clone, Copy, Debug, PartialEq, Eq, Hash)]
pub enum LineEnd {
    /// By byte 10.
    Newline,
    /// The text ends there.
    TextEnd,
    /// The text broke off there: more may come.
    Open,
}

/// An argument of a call, as written.
#[derive(Debug, PartialEq, Eq, Drop)]
pub enum Argument {
    /// The result of the line with that number. A number past `2^64 - 1` counts as `2^64 - 1`.
    Reference(u64),
    /// The entry with the second number, from 1, of the list that the line with the first number gave.
    /// Numbers past `2^64 - 1` count as `2^64 - 1`.
    Entry(u64, u64),
    /// A flag.
    Flag(bool),
    /// A limit of turns; none is `whole`.
    Limit(Option<u64>),
    /// A name, without its quotes.
    Name(Text),
}

/// A call, as written.
#[derive(Debug, PartialEq, Eq, Drop)]
pub struct Call {
    /// The column of its word, from 1.
    pub column: usize,
    /// Its word.
    pub word: CallWord,
    /// Its arguments in order.
    pub arguments: Vec<Argument>,
}

/// What a line says.
#[derive(Debug, PartialEq, Eq, Drop)]
pub enum Line {
    /// Nothing: it has no word.
    Empty,
    /// A whole call.
    Call(Call),
    /// No fault, as far as it goes. It is said of every line that may go on and has no fault.
    Unfinished,
}

/// Why a line is no call. Columns count bytes, from 1.
#[derive(Clone, Copy, Debug, PartialEq, Eq, Hash)]
pub enum LineError {
    /// The byte at that column can stand in no line.
    BadByte(usize),
    /// What begins at that column can't stand there: the line's end too, where byte 10 ends it.
    Unexpected(usize),
    /// The text ends, at that column, before the call is whole.
    EndOfInput(usize),
    /// The word at that column is a call that isn't built.
    NotBuilt(usize),
    /// Memory was refused.
    NoMemory,
}
