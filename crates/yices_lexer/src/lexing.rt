//! The bytes of a text, one by one: what was read of a token, and what the next byte makes of it.
//!
//! A comment keeps no byte. A word ends before a byte that is no part of it, so the byte that ends it is
//! read once the word was taken; every other token ends with its last byte.
ghost use Rattle.std.specs.Prelude.{ℕ, ◌≡◌, List, true, false, not, Some, IfOk};
ghost use Rattle.std.specs.List.{list_all};
ghost use Rattle.yices_grammar.specs.Tokens.{is_content, is_word_byte};
ghost use Rattle.yices_lexer.specs.Pieces.{passes};
ghost use Rattle.yices_lexer.specs.Bytes.{IsLexing, IsLexed, IsHeld, IsHeldLexed, is_ended as is_ended_by};
ghost use Rattle.yices_lexer.specs.declared.lexing.Lexing.TheVariants as lexing;

use crate::lexer::{closes, is_part_of_word, is_white_space, step_content};
use sqlite_items::Items;
use std::alloc::{AllocError, Global};
use std::str::from_utf8;

/// What was read of a token or a comment.
#[derive(Drop)]
pub enum Lexing {
    /// Nothing.
    Blank,
    /// A comment.
    Comment,
    /// A colon.
    Colon,
    /// A word.
    Word(Items<u8>),
    /// A string without its opening quote, and whether a backslash stands before the next byte.
    Quoted(Items<u8>, bool),
}

/// A token with its last byte.
#[derive(Drop)]
pub enum Ended {
    /// An opening bracket.
    Open,
    /// A closing bracket.
    Close,
    /// The typing mark `::`.
    Mark,
    /// A string, as it stands between its quotes.
    Quoted(Items<u8>),
}

/// What a byte makes of what was read.
#[derive(Drop)]
pub enum Lexed {
    /// More of a token or of a comment.
    Goes(Lexing),
    /// White space.
    White,
    /// A whole token.
    Token(Ended),
    /// Nothing can hold the byte.
    BadByte,
    /// The colon before the byte isn't followed by another.
    LoneColon,
}

/// A byte behind nothing.
#[tactic(auto, using(crate::proofs::Bytewise::white_first, crate::proofs::Bytewise::comment_first, crate::proofs::Bytewise::open_first, crate::proofs::Bytewise::close_first, crate::proofs::Bytewise::quote_first, crate::proofs::Bytewise::colon_first, crate::proofs::Bytewise::word_first, crate::proofs::Bytewise::word_first_held, crate::proofs::Bytewise::quote_first_held, crate::proofs::Bytewise::bad_first))]
fn first_byte(alloc: Global, byte: u8) -> Result<Lexed, AllocError>
    ensures held { IfOk result (λ l. IsHeldLexed l) }
    ensures makes { IfOk result (λ l. (rest : List ℕ) → IsLexing lexing.Blank rest → IsLexed rest byte l) }
{
    if is_white_space(byte) {
        return Ok(Lexed::White);
    }
    if byte == b';' {
        return Ok(Lexed::Goes(Lexing::Comment));
    }
    if byte == b'(' {
        return Ok(Lexed::Token(Ended::Open));
    }
    if byte == b')' {
        return Ok(Lexed::Token(Ended::Close));
    }
    if byte == b'"' {
        return Ok(Lexed::Goes(Lexing::Quoted(Items::new(alloc), false)));
    }
    if byte == b':' {
        return Ok(Lexed::Goes(Lexing::Colon));
    }
    if !is_part_of_word(byte) {
        return Ok(Lexed::BadByte);
    }
    let mut word = Items::new(alloc);
    word.push(byte)?;
    Ok(Lexed::Goes(Lexing::Word(word)))
}

/// A byte behind a colon.
#[tactic(auto, using(crate::proofs::Bytewise::mark_second, crate::proofs::Bytewise::mark_alone))]
fn behind_colon(byte: u8) -> Lexed
    ensures held { IsHeldLexed result }
    ensures makes { (rest : List ℕ) → IsLexing lexing.Colon rest → IsLexed rest byte result }
{
    if byte == b':' {
        return Lexed::Token(Ended::Mark);
    }
    Lexed::LoneColon
}

/// A byte of a word.
#[tactic(auto, using(crate::proofs::Bytewise::word_more, crate::proofs::Bytewise::word_more_held))]
fn in_word(mut word: Items<u8>, byte: u8) -> Result<Lexed, AllocError>
    requires each { list_all is_word_byte word ≡ true }
    requires more { is_word_byte byte ≡ true }
    ensures held { IfOk result (λ l. IsHeldLexed l) }
    ensures makes { IfOk result (λ l. (rest : List ℕ) → IsLexing (lexing.Word word) rest → IsLexed rest byte l) }
{
    word.push(byte)?;
    Ok(Lexed::Goes(Lexing::Word(word)))
}

/// A byte in a string.
#[tactic(auto, using(crate::proofs::Bytewise::string_closed_held, crate::proofs::Bytewise::string_more_held, crate::proofs::Bytewise::string_closes, crate::proofs::Bytewise::string_more, crate::proofs::Bytewise::string_breaks))]
fn in_string(mut bytes: Items<u8>, escaped: bool, byte: u8) -> Result<Lexed, AllocError>
    requires { passes false bytes ≡ Some escaped }
    ensures held { IfOk result (λ l. IsHeldLexed l) }
    ensures makes { IfOk result (λ l. (rest : List ℕ) → IsLexing (lexing.Quoted bytes escaped) rest → IsLexed rest byte l) }
{
    if closes(escaped, byte) {
        return Ok(Lexed::Token(Ended::Quoted(bytes)));
    }
    let Some(next) = step_content(escaped, byte) else {
        return Ok(Lexed::BadByte);
    };
    bytes.push(byte)?;
    Ok(Lexed::Goes(Lexing::Quoted(bytes, next)))
}

impl Lexing {
    /// Whether the byte stands behind the word or the comment that was read.
    pub fn is_ended(&self, byte: u8) -> bool
        ensures { result ≡ is_ended_by self.now byte }
    {
        match self {
            Lexing::Word(_) => !is_part_of_word(byte),
            Lexing::Comment => byte == b'\n',
            Lexing::Blank | Lexing::Colon | Lexing::Quoted(_, _) => false,
        }
    }
}

/// The next byte, where it doesn't stand behind a word or a comment. It takes O(1) steps, amortized.
#[tactic(auto, using(crate::proofs::Bytewise::comment_more))]
pub fn next_byte(alloc: Global, lexing: Lexing, byte: u8) -> Result<Lexed, AllocError>
    requires held { IsHeld lexing }
    requires going { is_ended_by lexing byte ≡ false }
    ensures held { IfOk result (λ l. IsHeldLexed l) }
    ensures makes { IfOk result (λ l. (rest : List ℕ) → IsLexing lexing rest → IsLexed rest byte l) }
{
    match lexing {
        Lexing::Blank => first_byte(alloc, byte),
        Lexing::Comment => Ok(Lexed::Goes(Lexing::Comment)),
        Lexing::Colon => Ok(behind_colon(byte)),
        Lexing::Word(word) => in_word(word, byte),
        Lexing::Quoted(bytes, escaped) => in_string(bytes, escaped, byte),
    }
}

/// The text of a word by its bytes.
pub fn word_text(bytes: &[u8]) -> &str
    requires { list_all is_word_byte bytes.now ≡ true }
    ensures { result.now ≡ bytes.now }
{
    match from_utf8(bytes) {
        Ok(text) => text,
        Err(_) => unreachable!(),
    }
}

/// The text of a string, as it stands between its quotes, by its bytes.
pub fn quoted_text(bytes: &[u8]) -> &str
    requires { is_content bytes.now ≡ true }
    ensures { result.now ≡ bytes.now }
{
    match from_utf8(bytes) {
        Ok(text) => text,
        Err(_) => unreachable!(),
    }
}
