//! Reads a line.
ghost use Rattle.std.specs.Prelude.{IfOk, IfErr, MatchResult, ◌≡◌, ◌<◌, ◌+◌, ◌^◌, Some, None, true, false, ℕ, length};
ghost use Rattle.call_script.specs.Lines.{Says, Reading, start};
ghost use Rattle.call_script.specs.Results.{reading_of, IsFormed, Refuses, front_of, Tells, ErrorTells};
ghost use Rattle.call_script.specs.Judging.{at_end, at_tail, go_on, judged, name_may_stand, refusal, said_from, too_early as plain_too_early, word_call};
ghost use Rattle.call_script.specs.Scanned.{plain_tail, plain_token};

use crate::arguments::argument_at;
use crate::lines::{Call, Line, LineEnd, LineError};
use crate::scanning::{Lexeme, Piece, Tail, Token, next_piece};
use crate::words::{ArgumentKind, CallWord, call_named, is_later, kind_at};
use std::alloc::Global;

/// A line that ends, at that column, before its call is whole.
fn too_early(end: LineEnd, last: usize) -> Result<Line, LineError>
    ensures { Tells result (plain_too_early end last) }
{
    match end {
        LineEnd::Newline => Err(LineError::Unexpected(last)),
        LineEnd::TextEnd => Err(LineError::EndOfInput(last)),
        LineEnd::Open => Ok(Line::Unfinished),
    }
}

/// What a line says that has no token, by what stands there.
#[tactic(auto, unfolding(crate::specs::Judging::at_tail))]
fn behind_nothing(tail: Tail, end: LineEnd) -> Result<Line, LineError>
    ensures { (last : ℕ) → Tells result (at_tail end last start (plain_tail tail)) }
{
    match tail {
        Tail::Over => match end {
            LineEnd::Newline | LineEnd::TextEnd => Ok(Line::Empty),
            LineEnd::Open => Ok(Line::Unfinished),
        },
        Tail::InsideWord => Ok(Line::Unfinished),
        Tail::Bad(at) => Err(LineError::BadByte(at)),
        Tail::InsideName(at) | Tail::BadInName(at, _) | Tail::Stray(at) => {
            Err(LineError::Unexpected(at))
        }
    }
}

/// What a line says that ends, at that column, behind a call's word and some arguments.
fn ended(call: Call, end: LineEnd, last: usize) -> Result<Line, LineError>
    ensures { Tells result (at_end end last (front_of call)) }
{
    if call.arguments.len() < call.word.fixed().len() {
        return too_early(end, last);
    }
    match end {
        LineEnd::Newline | LineEnd::TextEnd => Ok(Line::Call(call)),
        LineEnd::Open => Ok(Line::Unfinished),
    }
}

/// Whether the call's next argument may be a name.
fn takes_name(call: &Call) -> bool
    ensures { result ≡ name_may_stand (front_of call.now) }
{
    match kind_at(call.word, call.arguments.len()) {
        Some(ArgumentKind::Name) => true,
        Some(_) | None => false,
    }
}

/// What a line says that has a call's word and some arguments, by what stands behind them.
#[tactic(auto, unfolding(crate::specs::Judging::at_tail))]
fn behind_call(call: Call, tail: Tail, end: LineEnd, last: usize) -> Result<Line, LineError>
    ensures { Tells result (at_tail end last (front_of call) (plain_tail tail)) }
{
    let named = takes_name(&call);
    match tail {
        Tail::Over => ended(call, end, last),
        Tail::InsideWord => Ok(Line::Unfinished),
        Tail::InsideName(_) if named => too_early(end, last),
        Tail::BadInName(_, there) if named => Err(LineError::BadByte(there)),
        Tail::Bad(at) => Err(LineError::BadByte(at)),
        Tail::InsideName(at) | Tail::BadInName(at, _) | Tail::Stray(at) => {
            Err(LineError::Unexpected(at))
        }
    }
}

/// The call that the first token of a line is the word of.
fn first_word(token: Token<'_>) -> Result<CallWord, LineError>
    ensures { MatchResult result (λ w. word_call (plain_token token.entry).lexeme ≡ Some w) (λ e. (word_call (plain_token token.entry).lexeme ≡ None) × ErrorTells e (refusal start (plain_token token.entry))) }
{
    let Lexeme::Word(word) = token.lexeme else {
        return Err(LineError::Unexpected(token.column));
    };
    match call_named(word) {
        Some(call) => Ok(call),
        None if is_later(word) => Err(LineError::NotBuilt(token.column)),
        None => Err(LineError::Unexpected(token.column)),
    }
}

/// Adds the token to the call's arguments.
fn add_argument(alloc: Global, call: &mut Call, token: Token<'_>) -> Result<(), LineError>
    ensures added { IfOk result (λ _. go_on (front_of call.old) (plain_token token.entry) ≡ Some (front_of call.new)) }
    ensures refused { IfErr result (λ e. (r : Reading) → (go_on (front_of call.old) (plain_token token.entry) ≡ None → r ≡ refusal (front_of call.old) (plain_token token.entry)) → ErrorTells e r) }
{
    match argument_at(alloc, call.word, call.arguments.len(), token.lexeme) {
        Ok(Some(argument)) => match call.arguments.push(argument) {
            Ok(()) => Ok(()),
            Err(_) => Err(LineError::NoMemory),
        },
        Ok(None) => Err(LineError::Unexpected(token.column)),
        Err(_) => Err(LineError::NoMemory),
    }
}

/// Reads the arguments of a call, and what stands behind them; the first byte has that column.
fn read_arguments(
    alloc: Global,
    call: Call,
    bytes: &[u8],
    column: usize,
    end: LineEnd,
) -> Result<Line, LineError>
    requires { column + length bytes.now < 2 ^ 64 }
    ensures { Tells result (said_from end (column + length bytes.now) (front_of call) false column bytes.now) }
{
    let last = column + bytes.len();
    let mut call = call;
    let mut rest = bytes;
    let mut here = column;
    loop {
        match next_piece(rest, false, here, end) {
            Piece::Tail(tail) => return behind_call(call, tail, end, last),
            Piece::Token(token, behind) => {
                add_argument(alloc, &mut call, token)?;
                here = token.column_behind();
                rest = behind;
            }
        }
    }
}

/// What a line says, by its tokens.
fn read_tokens(alloc: Global, line: &[u8], end: LineEnd) -> Result<Line, LineError>
    ensures { Tells result (judged end line.now) }
{
    match next_piece(line, true, 1, end) {
        Piece::Tail(tail) => behind_nothing(tail, end),
        Piece::Token(token, rest) => {
            let word = first_word(token)?;
            let call = Call {
                column: token.column,
                word,
                arguments: Vec::new(alloc),
            };
            read_arguments(alloc, call, rest, token.column_behind(), end)
        }
    }
}

/// What a line says, by its bytes without the byte 10 that may end it. It takes O(n) steps for n bytes.
///
/// Errors: the first byte that can stand in no line, the first token that can't go on the call, the
/// line's end where the call isn't whole, or a call that isn't built; of these the one that the bytes show
/// first. A line that may go on is no whole call, and its last word isn't judged. `NoMemory` where memory
/// is refused.
#[tactic(auto, using(crate::proofs::Lawful::tells_says, crate::proofs::Lawful::tells_formed, crate::proofs::Lawful::tells_refused))]
pub fn read_line(alloc: Global, line: &[u8], end: LineEnd) -> Result<Line, LineError>
    ensures says { IfOk result (λ l. Says end line.now (reading_of l)) }
    ensures form { IfOk result (λ l. IsFormed l) }
    ensures refused { IfErr result (λ e. Refuses end line.now e) }
{
    read_tokens(alloc, line, end)
}
