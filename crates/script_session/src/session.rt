//! The session of a script.
ghost use Rattle.std.specs.Prelude.{◌≡◌, IfErr, IfOk, OnErr, OnOk, Option, string_bytes};
ghost use Rattle.call_script.specs.Lines.{HasForm};
ghost use Rattle.call_script.specs.Results.{all_written};
ghost use Rattle.yices_api.specs.declared.calls.Call.{Call};
ghost use Rattle.yices_api.specs.declared.replies.Reply.{Reply};
ghost use Rattle.script_session.specs.declared.stop.ScriptStop.TheVariants.{NoMemory};
ghost use Rattle.script_session.specs.Replies.{reply_line};
ghost use Rattle.script_session.specs.State.{IsStart, given_by, line_number};
ghost use Rattle.script_session.specs.Steps.{Answers, AnswersCall, StaysAfter, Stops, StopsCall, with_line};
ghost use Rattle.script_session.specs.Doing.{IsOfScript, place_at, StopsDoing, TellsCall, TellsRefusal, told_error};

use crate::asking::{NotAsked, asked};
use crate::meant::{Gave, Handle};
use crate::replies::{TextError, reply_line, reply_text};
use crate::stop::{ScriptStop, SyntaxFault};
use call_script::{Call as Written, Line, LineEnd, LineError, read_line};
use std::alloc::{AllocError, Global};
use std::marker::Model;
use yices_api::{Call, CallError, Env, Reply, step};
use yices_grammar::Place;

/// An environment, and what each line gave.
#[derive(Drop)]
pub struct ScriptSession {
    alloc: Global,
    env: Env,
    given: Vec<Gave>,
}

impl Model for ScriptSession {
    ghost use Rattle.script_session.specs.State.{Script};

    ghost Value = { Script };

    ghost view = { λ s. record { env = s.env; given = s.given.items } };
}

impl ScriptSession {
    /// An empty environment, and no line.
    ///
    /// # Errors
    ///
    /// Where memory is refused.
    pub fn new(alloc: Global) -> Result<ScriptSession, AllocError>
        ensures { IfOk result (λ session. IsStart session) }
    {
        let env = Env::new(alloc)?;
        env.is_world();
        Ok(ScriptSession {
            alloc,
            env,
            given: Vec::new(alloc),
        })
    }

    /// Answers a line, given without its byte 10: the line of its reply with a byte 10, or no text where the line has no
    /// call, or is open. The first line that has ended has the number 1; an open line has no number and changes nothing,
    /// so it can be asked for a fault before it goes on. The time is that of the call, and linear in the line and in what
    /// is said.
    ///
    /// # Errors
    ///
    /// `Syntax`, `NotBuilt`: the line is no call that is built. `TooLong`: the reply has more than `2^26` bytes.
    /// `NoMemory`.
    pub fn answer(&mut self, line: &[u8], end: LineEnd) -> Result<String, ScriptStop>
        ensures answered { IfOk result (λ said. (d : Option (Call × Reply)) × Answers self.old end line.now d (string_bytes said) self.new) }
        ensures stopped { IfErr result (λ stop. Stops self.old end line.now stop) }
        ensures after { IfErr result (λ stop. StaysAfter stop self.old self.new) }
    {
        match read_line(self.alloc, line, end) {
            Ok(Line::Empty) => {
                self.given.push(Gave::Nothing)?;
                Ok(String::new(self.alloc))
            }
            Ok(Line::Unfinished) => Ok(String::new(self.alloc)),
            Ok(Line::Call(call)) => self.answer_call(&call),
            Err(error) => Err(stop_of(error, self.line_number())),
        }
    }

    /// Answers a line that is that call.
    fn answer_call(&mut self, call: &Written) -> Result<String, ScriptStop>
        requires { HasForm call.now.word (all_written call.now.arguments.items) }
        ensures answered { IfOk result (λ said. (d : Option (Call × Reply)) × AnswersCall self.old call.now.word (all_written call.now.arguments.items) d (string_bytes said) self.new) }
        ensures stopped { IfErr result (λ stop. StopsCall self.old call.now.column call.now.word (all_written call.now.arguments.items) stop) }
        ensures after { IfErr result (λ stop. StaysAfter stop self.old self.new) }
    {
        match asked(self.alloc, &self.given, call.word, &call.arguments) {
            Ok(asked) => self.do_call(&asked, call.column),
            Err(NotAsked::Refused(why)) => self.refuse(why),
            Err(NotAsked::NoMemory) => Err(ScriptStop::NoMemory),
        }
    }

    /// Does a call, whose word has that column, and tells its reply.
    fn do_call(&mut self, call: &Call, column: usize) -> Result<String, ScriptStop>
        ensures done { IfOk result (λ said. (r : Reply) × TellsCall self.old call.now r (string_bytes said) self.new) }
        ensures stopped { IfErr result (λ stop. StopsDoing self.old column call.now stop) }
        ensures after { IfErr result (λ stop. StaysAfter stop self.old self.new) }
    {
        let line = self.line_number();
        let reply = step(&mut self.env, call);
        match reply_text(self.alloc, &self.env, &reply) {
            Ok(text) => Ok(self.tell(&text, kept_of(reply))?),
            Err(TextError::TooLong) => Err(ScriptStop::TooLong(place(line, column))),
            Err(TextError::NoMemory) => Err(ScriptStop::NoMemory),
        }
    }

    /// Tells the refusal of a call that isn't done.
    fn refuse(&mut self, why: CallError) -> Result<String, ScriptStop>
        requires { IsOfScript why }
        ensures told { IfOk result (λ said. TellsRefusal self.old why (string_bytes said) self.new) }
        ensures stopped { IfErr result (λ stop. stop ≡ NoMemory) }
        ensures same { OnErr result (self.new ≡ self.old) }
    {
        match reply_text(self.alloc, &self.env, &Reply::Refused(why)) {
            Ok(text) => Ok(self.tell(&text, Gave::Nothing)?),
            Err(TextError::TooLong) => unreachable!(),
            Err(TextError::NoMemory) => Err(ScriptStop::NoMemory),
        }
    }

    /// The reply's line; one line more, which gave that.
    fn tell(&mut self, text: &str, gave: Gave) -> Result<String, AllocError>
        ensures told { IfOk result (λ line. string_bytes line ≡ reply_line (line_number self.old) text.now) }
        ensures ok { OnOk result (self.new ≡ with_line self.old gave) }
        ensures err { OnErr result (self.new ≡ self.old) }
    {
        let line = reply_line(self.alloc, self.line_number(), text)?;
        self.given.push(gave)?;
        Ok(line)
    }

    /// The number of the next line.
    fn line_number(&self) -> u64
        ensures { result ≡ line_number self.now }
    {
        self.given.len() as u64 + 1
    }
}

/// What of a reply later lines can refer to.
fn kept_of(reply: Reply) -> Gave
    ensures { result ≡ given_by reply }
{
    match reply {
        Reply::TypeId(t) => Gave::Handle(Handle::TypeId(t)),
        Reply::Term(t) => Gave::Handle(Handle::Term(t)),
        Reply::Context(c) => Gave::Handle(Handle::Context(c)),
        Reply::Terms(terms) => Gave::Terms(terms),
        _ => Gave::Nothing,
    }
}

/// Why a line that can't be read stops the script.
fn stop_of(error: LineError, line: u64) -> ScriptStop
    ensures { result ≡ told_error error line }
{
    match error {
        LineError::BadByte(column) => ScriptStop::Syntax(SyntaxFault::BadByte, place(line, column)),
        LineError::Unexpected(column) => {
            ScriptStop::Syntax(SyntaxFault::Unexpected, place(line, column))
        }
        LineError::EndOfInput(column) => {
            ScriptStop::Syntax(SyntaxFault::EndOfInput, place(line, column))
        }
        LineError::NotBuilt(column) => ScriptStop::NotBuilt(place(line, column)),
        LineError::NoMemory => ScriptStop::NoMemory,
    }
}

fn place(line: u64, column: usize) -> Place
    ensures { result ≡ place_at line column }
{
    Place {
        line,
        column: column as u64,
    }
}
