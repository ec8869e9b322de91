//! The bytes of a text, one by one, to its commands.
ghost use Rattle.std.specs.Prelude.{ℕ, ◌≡◌, ◌+◌, ◌<◌, ◌≤◌, ◌^◌, [], ◌∷◌, ◌++◌, List, Some, true, false, length, OnOk, OnErr};
ghost use Rattle.yices_grammar.specs.Commands as grammar;
ghost use Rattle.yices_lexer.specs.Found.{plain_lexeme, IsGoodString};
ghost use Rattle.yices_lexer.specs.Bytes.{IsHeld, IsHeldLexed, IsGoodEnded, plain_ended, is_ended};
ghost use Rattle.yices_lexer.specs.declared.lexing.Lexing.TheVariants as lexing;
ghost use Rattle.yices_text.specs.View.{kind_of, fault_of, listed};
ghost use Rattle.yices_text.specs.Progress.{IsAt, TakesToken, Readies, Makes, Feeds, Closes, Ends, token_fault_of};

use crate::error::{ReadError, SyntaxError, SyntaxKind};
use crate::queue::Queue;
use std::alloc::{AllocError, Global};
use std::mem;
use yices_grammar::Place;
use yices_lexer::{Cursor, Ended, Lexed, Lexeme, Lexing, next_byte, quoted_text, word_text};
use yices_parser::{Command, Parser, Taken, TokenError};

/// What was read of a text: the unfinished token with its place, the place of the next byte, the unfinished
/// command, and the whole commands that wait to be answered.
#[derive(Drop)]
pub(crate) struct Scanner {
    pub lexing: Lexing,
    pub at: Cursor,
    pub first: Place,
    pub parser: Parser,
    pub waiting: Queue<Command>,
}

fn fault(kind: SyntaxKind, place: Place) -> ReadError
    ensures { fault_of result ≡ Some (record { kind = kind_of kind; place = place }) }
{
    ReadError::Syntax(SyntaxError { place, kind })
}

/// Why a token at that place isn't taken.
fn refusal(error: TokenError, place: Place) -> ReadError
    ensures { fault_of result ≡ token_fault_of place error }
{
    match error {
        TokenError::BadLiteral => fault(SyntaxKind::BadLiteral, place),
        TokenError::Nesting => ReadError::Nesting(place),
        TokenError::Unexpected => fault(SyntaxKind::Unexpected, place),
        TokenError::NoMemory => ReadError::NoMemory,
    }
}

/// The command waits, if there is one.
fn wait(waiting: &mut Queue<Command>, command: Option<Command>) -> Result<(), AllocError>
    ensures ok { OnOk result (waiting.new ≡ waiting.old ++ listed command) }
    ensures err { OnErr result (waiting.new ≡ waiting.old) }
{
    match command {
        Some(command) => waiting.push(command),
        None => Ok(()),
    }
}

impl Scanner {
    /// Before the first byte.
    #[tactic(auto, using(crate::proofs::Scanning::at_start))]
    pub fn start(alloc: Global) -> Scanner
        ensures { IsAt false [] [] result }
    {
        let at = Cursor::start();
        Scanner {
            lexing: Lexing::Blank,
            at,
            first: at.place,
            parser: Parser::start(),
            waiting: Queue::new(alloc),
        }
    }

    /// Hands a whole token to the parser; the text goes on at that place.
    fn take(&mut self, alloc: Global, lexeme: Lexeme<'_>, next: Place) -> Result<(), ReadError>
        requires { IsGoodString lexeme }
        ensures { TakesToken self.old self.new (plain_lexeme lexeme.entry) next result }
    {
        let parser = mem::replace(&mut self.parser, Parser::start());
        match parser.take(alloc, self.first, lexeme) {
            Ok(Taken { parser, command }) => {
                wait(&mut self.waiting, command)?;
                self.parser = parser;
                self.first = next;
                Ok(())
            }
            Err(error) => Err(refusal(error, self.first)),
        }
    }

    /// Hands a token with its last byte to the parser.
    fn take_ended(&mut self, alloc: Global, ended: Ended) -> Result<(), ReadError>
        requires { IsGoodEnded ended }
        ensures { TakesToken self.old self.new (plain_ended ended) self.old.at.place result }
    {
        let next = self.at.place;
        match ended {
            Ended::Open => self.take(alloc, Lexeme::Open, next),
            Ended::Close => self.take(alloc, Lexeme::Close, next),
            Ended::Mark => self.take(alloc, Lexeme::Mark, next),
            Ended::Quoted(bytes) => {
                let content = quoted_text(bytes.as_slice());
                self.take(alloc, Lexeme::Quoted(content), next)
            }
        }
    }

    /// Ends a word or a comment before the byte.
    #[tactic(auto, using(crate::proofs::Scanning::ready_same, crate::proofs::Scanning::ready_comment))]
    fn ready(&mut self, alloc: Global, byte: u8) -> Result<(), ReadError>
        requires { IsHeld self.old.lexing }
        ensures held { IsHeld self.new.lexing }
        ensures at { self.new.at ≡ self.old.at }
        ensures going { OnOk result (is_ended self.new.lexing byte ≡ false) }
        ensures readies { (fed : List ℕ) (answered : List grammar.Command) → IsAt false fed answered self.old → Readies fed byte answered self.new result }
    {
        if !self.lexing.is_ended(byte) {
            return Ok(());
        }
        let next = self.at.place;
        let lexing = mem::replace(&mut self.lexing, Lexing::Blank);
        let Lexing::Word(word) = lexing else {
            self.first = next;
            return Ok(());
        };
        self.take(alloc, Lexeme::Word(word_text(word.as_slice())), next)
    }

    /// What a byte makes of the text, where no word or comment ends before it.
    #[tactic(auto, using(crate::proofs::Scanning::makes_more))]
    fn make(&mut self, alloc: Global, lexed: Lexed, here: Place) -> Result<(), ReadError>
        requires held { IsHeldLexed lexed }
        requires blank { self.old.lexing ≡ lexing.Blank }
        ensures held { IsHeld self.new.lexing }
        ensures at { self.new.at ≡ self.old.at }
        ensures makes { (fed : List ℕ) (byte : ℕ) (answered : List grammar.Command) → Makes fed byte answered self.old lexed here → Feeds (fed ++ byte ∷ []) answered self.new result }
    {
        match lexed {
            Lexed::Goes(lexing) => {
                self.lexing = lexing;
                Ok(())
            }
            Lexed::White => {
                self.first = self.at.place;
                Ok(())
            }
            Lexed::Token(ended) => self.take_ended(alloc, ended),
            Lexed::BadByte => Err(fault(SyntaxKind::BadByte, here)),
            Lexed::LoneColon => Err(fault(SyntaxKind::BadByte, self.first)),
        }
    }

    /// The next byte.
    fn feed(&mut self, alloc: Global, byte: u8) -> Result<(), ReadError>
        requires held { IsHeld self.old.lexing }
        requires small { self.old.at.index < 2 ^ 63 }
        ensures held { IsHeld self.new.lexing }
        ensures index { OnOk result (self.new.at.index ≡ self.old.at.index + 1) }
        ensures feeds { (fed : List ℕ) (answered : List grammar.Command) → IsAt false fed answered self.old → Feeds (fed ++ byte ∷ []) answered self.new result }
    {
        self.ready(alloc, byte)?;
        let here = self.at.place;
        self.at = self.at.behind(&[byte]);
        let lexing = mem::replace(&mut self.lexing, Lexing::Blank);
        let lexed = next_byte(alloc, lexing, byte)?;
        self.make(alloc, lexed, here)
    }

    /// The next bytes. It takes O(n) steps for n bytes, amortized.
    pub fn feed_all(&mut self, alloc: Global, piece: &[u8]) -> Result<(), ReadError>
        requires held { IsHeld self.old.lexing }
        requires small { self.old.at.index + length piece.now ≤ 2 ^ 63 }
        ensures held { IsHeld self.new.lexing }
        ensures index { OnOk result (self.new.at.index ≡ self.old.at.index + length piece.now) }
        ensures feeds { (fed : List ℕ) (answered : List grammar.Command) → IsAt false fed answered self.old → Feeds (fed ++ piece.now) answered self.new result }
    {
        for byte in piece {
            self.feed(alloc, *byte)?;
        }
        Ok(())
    }

    /// The token that the end of the text ends.
    #[tactic(auto, using(crate::proofs::Scanning::closes_blank, crate::proofs::Scanning::closes_comment))]
    fn end_token(&mut self, alloc: Global) -> Result<(), ReadError>
        requires { IsHeld self.old.lexing }
        ensures held { IsHeld self.new.lexing }
        ensures at { self.new.at ≡ self.old.at }
        ensures ends { (fed : List ℕ) (answered : List grammar.Command) → IsAt true fed answered self.old → Closes fed answered self.new result }
    {
        let next = self.at.place;
        let lexing = mem::replace(&mut self.lexing, Lexing::Blank);
        match lexing {
            Lexing::Blank | Lexing::Comment => {
                self.first = next;
                Ok(())
            }
            Lexing::Colon => Err(fault(SyntaxKind::BadByte, self.first)),
            Lexing::Word(word) => {
                self.take(alloc, Lexeme::Word(word_text(word.as_slice())), next)
            }
            Lexing::Quoted(_, _) => Err(fault(SyntaxKind::EndOfInput, next)),
        }
    }

    /// The end of the text.
    pub fn end(&mut self, alloc: Global) -> Result<(), ReadError>
        requires { IsHeld self.old.lexing }
        ensures held { IsHeld self.new.lexing }
        ensures ends { (fed : List ℕ) (answered : List grammar.Command) → IsAt true fed answered self.old → Ends fed answered self.new result }
    {
        self.end_token(alloc)?;
        if self.parser.is_between() {
            return Ok(());
        }
        Err(fault(SyntaxKind::EndOfInput, self.at.place))
    }
}
