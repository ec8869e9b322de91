//! The arguments of a call, by their kinds.
ghost use Rattle.std.specs.Prelude.{◌≡◌, IfOk, true, length, option_map};
ghost use Rattle.std.specs.List.{list_all};
ghost use Rattle.yices_grammar.specs.Words as words;
ghost use Rattle.yices_grammar.specs.Words.{are_some};
ghost use Rattle.call_script.specs.Judging.{numeral as plain_numeral, counted as plain_counted, limit_of as plain_limit_of, reference_of as plain_reference_of, flag_of as plain_flag_of, quoted_of as plain_quoted_of, argument_of as plain_argument_of, argument_at as plain_argument_at};
ghost use Rattle.call_script.specs.Results.{written};
ghost use Rattle.call_script.specs.Scanned.{plain_lexeme};

use crate::lines::Argument;
use crate::scanning::Lexeme;
use crate::words::{ArgumentKind, CallWord, kind_at};
use std::alloc::{AllocError, Global};
use y_io::Text;

fn is_digit(byte: u8) -> bool
    ensures { result ≡ words.is_digit byte }
{
    byte.is_ascii_digit()
}

fn all_digits(bytes: &[u8]) -> bool
    ensures { result ≡ list_all words.is_digit bytes.now }
{
    bytes.iter().all(|b| is_digit(*b))
}

fn are_digits(bytes: &[u8]) -> bool
    ensures { result ≡ are_some words.is_digit bytes.now }
{
    !bytes.is_empty() && all_digits(bytes)
}

/// The number of a numeral; one past `2^64 - 1` counts as that.
#[tactic(auto, unfolding(crate::specs::Judging::numeral))]
fn numeral(digits: &str) -> Option<u64>
    ensures { result ≡ plain_numeral digits.now }
{
    if !are_digits(digits.as_bytes()) {
        return None;
    }
    match digits.parse::<u64>() {
        Ok(number) => Some(number),
        Err(_) => Some(u64::MAX),
    }
}

/// A reference: a number sign and a numeral, or two with a point between them.
#[tactic(auto, unfolding(crate::specs::Judging::reference_of))]
fn reference_of(word: &str) -> Option<Argument>
    ensures { option_map written result ≡ plain_reference_of word.now }
{
    let numbers = word.strip_prefix('#')?;
    match numbers.split_once('.') {
        None => Some(Argument::Reference(numeral(numbers)?)),
        Some((line, entry)) => Some(Argument::Entry(numeral(line)?, numeral(entry)?)),
    }
}

/// A flag.
#[tactic(auto, unfolding(crate::specs::Judging::flag_of))]
fn flag_of(word: &str) -> Option<Argument>
    ensures { option_map written result ≡ plain_flag_of word.now }
{
    if word == "true" {
        return Some(Argument::Flag(true));
    }
    if word == "false" {
        return Some(Argument::Flag(false));
    }
    None
}

/// The number of a numeral below `2^64`.
#[tactic(auto, unfolding(crate::specs::Judging::counted))]
fn counted(digits: &str) -> Option<u64>
    ensures { result ≡ plain_counted digits.now }
{
    if !are_digits(digits.as_bytes()) {
        return None;
    }
    match digits.parse::<u64>() {
        Ok(number) => Some(number),
        Err(_) => None,
    }
}

/// A limit of turns, or the word for none.
#[tactic(auto, unfolding(crate::specs::Judging::limit_of))]
fn limit_of(word: &str) -> Option<Argument>
    ensures { option_map written result ≡ plain_limit_of word.now }
{
    if word == "whole" {
        return Some(Argument::Limit(None));
    }
    match counted(word) {
        Some(turns) => Some(Argument::Limit(Some(turns))),
        None => None,
    }
}

/// A name, which isn't empty.
fn quoted_of(alloc: Global, name: &str) -> Result<Option<Argument>, AllocError>
    ensures { IfOk result (λ a. option_map written a ≡ plain_quoted_of name.now) }
{
    if name.is_empty() {
        return Ok(None);
    }
    let name = Text::new(alloc, name)?;
    Ok(Some(Argument::Name(name)))
}

/// The argument of that kind, if the token is one.
fn argument_of(
    alloc: Global,
    kind: ArgumentKind,
    lexeme: Lexeme<'_>,
) -> Result<Option<Argument>, AllocError>
    ensures { IfOk result (λ a. option_map written a ≡ plain_argument_of kind (plain_lexeme lexeme.entry)) }
{
    match (kind, lexeme) {
        (ArgumentKind::Flag, Lexeme::Word(word)) => Ok(flag_of(word)),
        (ArgumentKind::Turns, Lexeme::Word(word)) => Ok(limit_of(word)),
        (ArgumentKind::Name, Lexeme::Name(name)) => quoted_of(alloc, name),
        (ArgumentKind::Flag, Lexeme::Name(_)) | (ArgumentKind::Name, Lexeme::Word(_)) => Ok(None),
        (_, Lexeme::Word(word)) => Ok(reference_of(word)),
        (_, Lexeme::Name(_)) => Ok(None),
    }
}

/// The call's argument at that place, from 0, if the token is one.
pub(crate) fn argument_at(
    alloc: Global,
    word: CallWord,
    place: usize,
    lexeme: Lexeme<'_>,
) -> Result<Option<Argument>, AllocError>
    ensures { IfOk result (λ a. option_map written a ≡ plain_argument_at word place (plain_lexeme lexeme.entry)) }
{
    match kind_at(word, place) {
        Some(kind) => argument_of(alloc, kind, lexeme),
        None => Ok(None),
    }
}
