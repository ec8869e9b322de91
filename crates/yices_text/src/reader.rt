//! The reader of a text that comes in pieces.
ghost use Rattle.std.specs.Prelude.{ℕ, ◌≡◌, ◌+◌, ◌≤◌, ◌^◌, ◌∷◌, ◌++◌, [], List, Option, Some, None, true, false, length, IfOk, IfErr, OnOk, OnErr, IsErr, Ok, Err};
ghost use Rattle.yices_grammar.specs.Texts.{Reads, BeginsWith};
ghost use Rattle.yices_grammar.specs.Faults.{Fault, HasFault};
ghost use Rattle.yices_grammar.specs.Commands as grammar;
ghost use Rattle.yices_lexer.specs.Bytes.{IsHeld};
ghost use Rattle.yices_text.specs.Progress.{all_of};
ghost use Rattle.yices_text.specs.Sound.{Works};
ghost use Rattle.yices_text.specs.View.{says, listed, fault_of, AnswersFault, HoldsNoMore};
ghost use Rattle.yices_text.specs.declared.error.ReadError.{ReadError};

use crate::error::ReadError;
use crate::scanner::Scanner;
use sqlite_items::Items;
use std::alloc::{AllocError, Global};
use std::marker::{Model, PhantomData};
use y_erased::{Erased, Makes, made};
use yices_parser::Command;

/// The commands that were answered, one more.
struct Answered;

impl Makes for Answered {
    type From = Erased<Items<Command>>;

    type With = Command;

    type Of = Items<Command>;

    ghost make = { λ answered command. answered.value ++ command ∷ [] };
}

/// The bytes that were fed, and a piece more.
struct Fed<'a> {
    of: PhantomData<&'a ()>,
}

impl<'a> Makes for Fed<'a> {
    type From = Erased<Items<u8>>;

    type With = &'a [u8];

    type Of = Items<u8>;

    ghost make = { λ fed piece. fed.value ++ piece.now };
}

/// No command yet.
struct NoCommands;

impl Makes for NoCommands {
    type From = ();

    type With = ();

    type Of = Items<Command>;

    ghost make = { λ _ _. [] };
}

/// No byte yet.
struct NoBytes;

impl Makes for NoBytes {
    type From = ();

    type With = ();

    type Of = Items<u8>;

    ghost make = { λ _ _. [] };
}

/// Reads the commands of a text that is fed in pieces. It keeps what was read of the unfinished command,
/// the bytes of the unfinished token, and the whole commands that weren't answered yet: no byte of a
/// command stays once it is whole.
#[derive(Drop)]
pub struct Reader {
    alloc: Global,
    scanner: Scanner,
    fault: Option<ReadError>,
    finished: bool,
    failure: Option<ReadError>,
    fed: Erased<Items<u8>>,
    answered: Erased<Items<Command>>,
}

impl Model for Reader {
    ghost use Rattle.yices_text.specs.View.{Reading, reading_code};

    ghost Value = { Reading };

    ghost coded = { reading_code };

    ghost use Rattle.yices_text.specs.Sound.{reading_of, IsSound};

    ghost view = { reading_of };

    ghost invariant = { IsSound };
}

/// Reads a piece more, where no fault was found before it; the fault that was found, if one was. The error
/// is want of memory.
fn scan(
    alloc: Global,
    scanner: &mut Scanner,
    fault: Option<ReadError>,
    piece: &[u8],
) -> Result<Option<ReadError>, AllocError>
    requires held { fault ≡ None → IsHeld scanner.old.lexing }
    requires small { fault ≡ None → scanner.old.at.index + length piece.now ≤ 2 ^ 63 }
    ensures { IfOk result (λ f. (fed : List ℕ) (answered : List grammar.Command) → Works false fed answered scanner.old fault → Works false (fed ++ piece.now) answered scanner.new f) }
{
    if fault.is_some() {
        return Ok(fault);
    }
    match scanner.feed_all(alloc, piece) {
        Ok(()) => Ok(None),
        Err(ReadError::NoMemory) => Err(AllocError),
        Err(error) => Ok(Some(error)),
    }
}

/// Judges the end of a finished text, where nothing waits and no fault was found; the fault that was
/// found, if one was.
fn settle(
    alloc: Global,
    scanner: &mut Scanner,
    finished: bool,
    fault: Option<ReadError>,
) -> Option<ReadError>
    requires { fault ≡ None → IsHeld scanner.old.lexing }
    ensures works { (fed : List ℕ) (answered : List grammar.Command) → Works finished fed answered scanner.old fault → Works finished fed answered scanner.new result }
    ensures whole { finished ≡ true → result ≡ None → scanner.new.waiting ≡ [] → (fed : List ℕ) (answered : List grammar.Command) → Works finished fed answered scanner.old fault → Reads fed (all_of answered scanner.new) }
{
    if fault.is_some() || !finished || !scanner.waiting.is_empty() {
        return fault;
    }
    match scanner.end(alloc) {
        Ok(()) => None,
        Err(error) => Some(error),
    }
}

impl Reader {
    /// A reader that was fed nothing.
    pub fn new(alloc: Global) -> Reader
        ensures fed { result.fed ≡ [] }
        ensures answered { result.answered ≡ [] }
        ensures finished { result.finished ≡ false }
        ensures failure { result.failure ≡ None }
    {
        Reader {
            alloc,
            scanner: Scanner::start(alloc),
            fault: None,
            finished: false,
            failure: None,
            fed: made::<NoBytes>(&(), &()),
            answered: made::<NoCommands>(&(), &()),
        }
    }

    /// Takes the next piece of the text. The error is want of memory, and then it lasts. It takes O(n)
    /// steps for n bytes, amortized, however the text is cut.
    pub fn feed(&mut self, piece: &[u8]) -> Result<(), AllocError>
        requires unfinished { self.old.finished ≡ false }
        requires small { length self.old.fed + length piece.now ≤ 2 ^ 63 }
        ensures ok { OnOk result (self.new ≡ record self.old { fed = self.old.fed ++ piece.now }) }
        ensures err { OnErr result (self.new ≡ record self.old { failure = Some ReadError.NoMemory }) }
        ensures lasting { self.old.failure ≡ Some ReadError.NoMemory → IsErr result }
    {
        if self.failure == Some(ReadError::NoMemory) {
            return Err(AllocError);
        }
        match scan(self.alloc, &mut self.scanner, self.fault, piece) {
            Ok(fault) => {
                self.fault = fault;
                self.fed = made::<Fed>(&self.fed, &piece);
                Ok(())
            }
            Err(error) => {
                self.failure = Some(ReadError::NoMemory);
                Err(error)
            }
        }
    }

    /// No piece comes any more: the text ends here.
    pub fn finish(&mut self)
        ensures { self.new ≡ record self.old { finished = true } }
    {
        self.finished = true;
    }

    /// The next command of the text; `None` where no whole command more was fed. After an error every
    /// later call answers it again. It takes O(1) steps, but for a last word at the end of the text.
    pub fn next(&mut self) -> Result<Option<Command>, ReadError>
        ensures fed { self.new.fed ≡ self.old.fed }
        ensures finished { self.new.finished ≡ self.old.finished }
        ensures answered { IfOk result (λ r. self.new.answered ≡ self.old.answered ++ listed r) }
        ensures unanswered { OnErr result (self.new.answered ≡ self.old.answered) }

        // The text begins with what was answered.
        ensures got { IfOk result (λ r. BeginsWith self.old.fed (says (self.old.answered ++ listed r))) }
        ensures begins { BeginsWith self.new.fed (says self.new.answered) }

        // When there is no command more.
        ensures whole { result ≡ Ok None → self.old.finished ≡ true → Reads self.old.fed (says self.old.answered) }
        ensures waiting { result ≡ Ok None → self.old.finished ≡ false → HoldsNoMore self.old.fed (says self.old.answered) }

        // A fault is answered exactly where the text has it behind the commands answered.
        ensures fault { IfErr result (λ e. (f : Fault) → fault_of e ≡ Some f → HasFault self.old.finished self.old.fed (says self.old.answered) f) }
        ensures exactly { (f : Fault) → HasFault self.old.finished self.old.fed (says self.old.answered) f → AnswersFault f result }

        // Errors last.
        ensures working { OnOk result (self.new.failure ≡ None) }
        ensures failed { IfErr result (λ e. self.new.failure ≡ Some e) }
        ensures lasting { (e : ReadError) → self.old.failure ≡ Some e → result ≡ Err e }
    {
        if let Some(error) = self.failure {
            return Err(error);
        }
        self.fault = settle(self.alloc, &mut self.scanner, self.finished, self.fault);
        if let Some(command) = self.scanner.waiting.pop() {
            self.answered = made::<Answered>(&self.answered, &command);
            return Ok(Some(command));
        }
        match self.fault {
            Some(error) => {
                self.failure = Some(error);
                Err(error)
            }
            None => Ok(None),
        }
    }
}
