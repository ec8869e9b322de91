//! The tokens of a line, one by one, and what stands behind the last of them.
ghost use Rattle.std.specs.Prelude.{◌≡◌, ◌≤◌, ◌<◌, ◌+◌, ◌^◌, true, length};
ghost use Rattle.std.specs.List.{prefix_len, list_all};
ghost use Rattle.call_script.specs.Tokens as tokens;
ghost use Rattle.call_script.specs.Judging.{piece_at as plain_piece_at, word_piece as plain_word_piece, name_piece as plain_name_piece, next_piece as plain_next_piece, column_behind};
ghost use Rattle.call_script.specs.Scanned.{plain_piece, plain_token, is_printable, IsWithin};

use crate::lines::LineEnd;
use std::str::from_utf8;

/// A word, or a name without its quotes.
#[derive(Clone, Copy)]
pub(crate) enum Lexeme<'a> {
    Word(&'a str),
    Name(&'a str),
}

/// What stands behind the tokens of a line. Numbers are columns.
#[derive(Clone, Copy)]
pub(crate) enum Tail {
    /// The line's end, perhaps behind a comment.
    Over,
    /// The end of an open line, inside a word.
    InsideWord,
    /// The line's end, inside the name that begins there.
    InsideName(usize),
    /// A byte there that nothing can hold.
    Bad(usize),
    /// In the name that begins at the first column, a byte at the second that no name can hold.
    BadInName(usize, usize),
    /// A byte there that begins no token: a bracket, or one where a separator is missing.
    Stray(usize),
}

/// A word or a name, with the column of its first byte.
#[derive(Clone, Copy)]
pub(crate) struct Token<'a> {
    pub(crate) column: usize,
    pub(crate) lexeme: Lexeme<'a>,
}

/// What stands first in a line: a token and the bytes behind it, or the tail.
#[derive(Clone, Copy)]
pub(crate) enum Piece<'a> {
    Token(Token<'a>, &'a [u8]),
    Tail(Tail),
}

fn is_separator(byte: u8) -> bool
    ensures { result ≡ tokens.is_separator byte }
{
    byte == b'\t' || byte == b' '
}

fn is_bracket(byte: u8) -> bool
    ensures { result ≡ tokens.is_bracket byte }
{
    byte == b'(' || byte == b')'
}

fn is_word_byte(byte: u8) -> bool
    ensures { result ≡ tokens.is_word_byte byte }
{
    32 < byte && byte < 127 && !matches!(byte, b'(' | b')' | b'"' | b';')
}

fn is_name_byte(byte: u8) -> bool
    ensures { result ≡ tokens.is_name_byte byte }
{
    31 < byte && byte < 127 && !matches!(byte, b'"' | b'\\')
}

/// How many separators the bytes begin with.
fn separators_length(bytes: &[u8]) -> usize
    ensures prefix { result ≡ prefix_len tokens.is_separator bytes.now }
    ensures within { result ≤ length bytes.now }
{
    for (i, byte) in bytes.iter().enumerate() {
        if !is_separator(*byte) {
            return i;
        }
    }
    bytes.len()
}

/// How many bytes of a word the bytes begin with.
fn word_length(bytes: &[u8]) -> usize
    ensures prefix { result ≡ prefix_len tokens.is_word_byte bytes.now }
    ensures within { result ≤ length bytes.now }
{
    for (i, byte) in bytes.iter().enumerate() {
        if !is_word_byte(*byte) {
            return i;
        }
    }
    bytes.len()
}

/// How many bytes of a name the bytes begin with.
fn name_length(bytes: &[u8]) -> usize
    ensures prefix { result ≡ prefix_len tokens.is_name_byte bytes.now }
    ensures within { result ≤ length bytes.now }
{
    for (i, byte) in bytes.iter().enumerate() {
        if !is_name_byte(*byte) {
            return i;
        }
    }
    bytes.len()
}

/// The text of a word or a name by its bytes.
#[tactic(auto, using(crate::proofs::FirstBytes::printable_utf8))]
fn text_of(bytes: &[u8]) -> &str
    requires { list_all is_printable bytes.now ≡ true }
    ensures { result.now ≡ bytes.now }
{
    match from_utf8(bytes) {
        Ok(text) => text,
        Err(_) => unreachable!(),
    }
}

/// The word that begins at that column, with the bytes, or the end of an open line inside it.
#[tactic(auto, using(crate::proofs::FirstBytes::word_printable))]
fn word_piece(bytes: &[u8], here: usize, end: LineEnd) -> Piece<'_>
    ensures { plain_piece result ≡ plain_word_piece end here bytes.now (prefix_len tokens.is_word_byte bytes.now) }
{
    let n = word_length(bytes);
    if n == bytes.len() && end == LineEnd::Open {
        return Piece::Tail(Tail::InsideWord);
    }
    let lexeme = Lexeme::Word(text_of(&bytes[..n]));
    let token = Token {
        column: here,
        lexeme,
    };
    Piece::Token(token, &bytes[n..])
}

/// The name whose quote stands at that column, in front of the bytes, or why there is none.
#[tactic(auto, using(crate::proofs::FirstBytes::name_printable))]
fn name_piece(bytes: &[u8], here: usize) -> Piece<'_>
    requires { here + length bytes.now + 1 < 2 ^ 64 }
    ensures { plain_piece result ≡ plain_name_piece here bytes.now (prefix_len tokens.is_name_byte bytes.now) }
{
    let n = name_length(bytes);
    match &bytes[n..] {
        [] => Piece::Tail(Tail::InsideName(here)),
        [b'"', behind @ ..] => {
            let lexeme = Lexeme::Name(text_of(&bytes[..n]));
            let token = Token {
                column: here,
                lexeme,
            };
            Piece::Token(token, behind)
        }
        [..] => Piece::Tail(Tail::BadInName(here, here + 1 + n)),
    }
}

/// What stands right there, at that column. A token may stand there where `free` says so.
#[tactic(auto, using(crate::proofs::FirstBytes::none_first, crate::proofs::FirstBytes::comment_first, crate::proofs::FirstBytes::bracket_first, crate::proofs::FirstBytes::quote_stray, crate::proofs::FirstBytes::name_first, crate::proofs::FirstBytes::word_stray, crate::proofs::FirstBytes::word_first, crate::proofs::FirstBytes::bad_first))]
fn piece_at(bytes: &[u8], free: bool, here: usize, end: LineEnd) -> Piece<'_>
    requires { here + length bytes.now < 2 ^ 64 }
    ensures { plain_piece result ≡ plain_piece_at end free here bytes.now }
{
    let [first, behind @ ..] = bytes else {
        return Piece::Tail(Tail::Over);
    };
    if *first == b';' {
        return Piece::Tail(Tail::Over);
    }
    if is_bracket(*first) {
        return Piece::Tail(Tail::Stray(here));
    }
    if *first == b'"' {
        if !free {
            return Piece::Tail(Tail::Stray(here));
        }
        return name_piece(behind, here);
    }
    if is_word_byte(*first) {
        if !free {
            return Piece::Tail(Tail::Stray(here));
        }
        return word_piece(bytes, here, end);
    }
    Piece::Tail(Tail::Bad(here))
}

/// What stands behind the separators that the bytes begin with; the first byte has that column. A token may
/// stand right there where `free` says so.
pub(crate) fn next_piece(bytes: &[u8], free: bool, here: usize, end: LineEnd) -> Piece<'_>
    requires { here + length bytes.now < 2 ^ 64 }
    ensures found { plain_piece result ≡ plain_next_piece end free here bytes.now }
    ensures within { IsWithin here bytes.now (plain_piece result) }
{
    let n = separators_length(bytes);
    piece_at(&bytes[n..], free || 0 < n, here + n, end)
}

impl Token<'_> {
    /// The column behind the token.
    pub(crate) fn column_behind(&self) -> usize
        requires { column_behind (plain_token self.now) < 2 ^ 64 }
        ensures { result ≡ column_behind (plain_token self.now) }
    {
        match self.lexeme {
            Lexeme::Word(word) => self.column + word.len(),
            Lexeme::Name(name) => self.column + name.len() + 2,
        }
    }
}
