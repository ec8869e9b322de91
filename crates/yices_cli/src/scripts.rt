//! Answers the lines of a script of calls and writes the replies.

ghost use Rattle.std.specs.Prelude.{◌≡◌, ◌≤◌, ◌<◌, ◌+◌, ◌∷◌, ◌++◌, [], ℕ, List, Option, Some, None, length, take, drop, slice_get, string_bytes, OnOk, OnErr, IfOk, IfErr, IfSome, IfNone};
ghost use Rattle.y_io.specs.Outside.{Rose, Grows, GrowsByPart};
ghost use Rattle.yices_api.specs.declared.calls.Call.{Call};
ghost use Rattle.yices_api.specs.declared.replies.Reply.{Reply};
ghost use Rattle.script_session.specs.State.{Script, IsStart};
ghost use Rattle.script_session.specs.Steps.{Answers, Stops};
ghost use Rattle.yices_cli.specs.declared.exit.Exit.TheVariants.{Done, NoMemory, WriteFault};
ghost use Rattle.yices_cli.specs.declared.words.Mode.TheVariants.{Calls};
ghost use Rattle.yices_cli.specs.Scripts as scripts;
ghost use Rattle.yices_cli.specs.Scripts.{IsOneLine, HandlesLast, end_of};
ghost use Rattle.yices_cli.specs.Parts.{is_finished, EndsSo};
ghost use Rattle.yices_cli.specs.Lines.{GoesOn, IsUnsaid, IsFailedLine};

use crate::exit::{Exit, LongKind};
use crate::reading::TextEnd;
use crate::writing::write_text;
use call_script::LineEnd;
use memchr::memchr;
use script_session::{ScriptSession, ScriptStop, SyntaxFault, one_more_line, script_runs};
use std::alloc::Global;
use y_io::Sink;
use yices_api::runs_last;
use yices_session::Refusal;
use yices_text::{SyntaxError, SyntaxKind};

/// Answers the lines of a script, from an empty environment on, each before the next is looked at, and
/// writes each reply whole before the next line. A refused call is a reply: only a line that is no call
/// stops the script, and a reply that is too long. Of a line that the text breaks off a fault is told,
/// and else nothing. It takes O(n) steps for the n bytes of the text, besides those of the calls.
pub fn answer_script<K: Sink>(
    alloc: Global,
    text: &[u8],
    end: TextEnd,
    out: &mut K,
) -> Result<(), Exit>
    ensures done { OnOk result (EndsSo Calls end text.now (record { old = K.written out.old; new = K.written out.new; before = K.faults out.old; after = K.faults out.new }) Done) }
    ensures stopped { IfErr result (EndsSo Calls end text.now (record { old = K.written out.old; new = K.written out.new; before = K.faults out.old; after = K.faults out.new })) }
{
    handles_last();
    let mut session = start(alloc)?;
    let mut rest = text;
    'lines: while let Some(count) = line_length(rest) {
        answer_line(&mut session, &rest[..count], LineEnd::Newline, out)?;
        rest = &rest[count + 1..];
    }
    answer_line(&mut session, rest, last_end(end), out)?;
    match end {
        TextEnd::InputEnd => Ok(()),
        TextEnd::ReadFault => Err(Exit::ReadFault),
        TextEnd::Limit => Err(Exit::TooLong(LongKind::Bytes)),
    }
}

// A script without a line.
fn start(alloc: Global) -> Result<ScriptSession, Exit>
    ensures start { IfOk result (λ session. IsStart session) }
    ensures cause { IfErr result (λ e. e ≡ NoMemory) }
{
    match ScriptSession::new(alloc) {
        Ok(session) => Ok(session),
        Err(_) => Err(Exit::NoMemory),
    }
}

// How many bytes stand before the first byte 10, where there is one.
fn line_length(text: &[u8]) -> Option<usize>
    ensures bound { IfSome result (λ n. n < length text.now) }
    ensures line { IfSome result (λ n. IsOneLine (take n text.now)) }
    ensures ended { IfSome result (λ n. slice_get text.now n ≡ Some 10) }
    ensures none { IfNone result (IsOneLine text.now) }
{
    memchr(b'\n', text)
}

// How the last line of a text ends.
fn last_end(end: TextEnd) -> LineEnd
    ensures { result ≡ end_of (is_finished end) }
{
    match end {
        TextEnd::InputEnd => LineEnd::TextEnd,
        TextEnd::ReadFault | TextEnd::Limit => LineEnd::Open,
    }
}

// What handles stand for lasts through a run. It does nothing.
fn handles_last()
    ensures { (first last : Script) → IsStart first → HandlesLast first last }
{
    script_runs();
    runs_last();
}

// Answers a line and writes what is said, which may be nothing.
fn answer_line<K: Sink>(
    session: &mut ScriptSession,
    line: &[u8],
    end: LineEnd,
    out: &mut K,
) -> Result<(), Exit>
    ensures later { K.faults out.old ≤ K.faults out.new }
    ensures answered { OnOk result (GoesOn session.old (record { bytes = line.now; end = end }) (K.written out.old) (K.written out.new) session.new) }
    ensures failed { IfErr result (IsFailedLine session.old (record { bytes = line.now; end = end }) (record { old = K.written out.old; new = K.written out.new; before = K.faults out.old; after = K.faults out.new })) }
{
    handles_last();
    script_runs();
    one_more_line();
    let said = answer(session, line, end)?;
    write_text(out, said.as_str())
}

// Answers a line, or says which exit it is without an answer.
fn answer(session: &mut ScriptSession, line: &[u8], end: LineEnd) -> Result<String, Exit>
    ensures answered { IfOk result (λ said. (done : Option (Call × Reply)) × Answers session.old end line.now done (string_bytes said) session.new) }
    ensures stopped { IfErr result (λ e. (why : _) × Stops session.old end line.now why × (scripts.exit_of why ≡ e)) }
{
    match session.answer(line, end) {
        Ok(said) => Ok(said),
        Err(stop) => Err(exit_of(stop)),
    }
}

// The exit where a line isn't answered.
fn exit_of(stop: ScriptStop) -> Exit
    ensures { scripts.exit_of stop ≡ result }
{
    match stop {
        ScriptStop::Syntax(kind, place) => Exit::Syntax(SyntaxError {
            place,
            kind: kind_of_line(kind),
        }),
        ScriptStop::NotBuilt(place) => Exit::Refused(place, Refusal::NotBuilt),
        ScriptStop::TooLong(place) => Exit::TooLong(LongKind::Reply(place)),
        ScriptStop::NoMemory => Exit::NoMemory,
    }
}

// The kind of a line's fault, as one of a text.
fn kind_of_line(kind: SyntaxFault) -> SyntaxKind
    ensures { result ≡ scripts.kind_of_line kind }
{
    match kind {
        SyntaxFault::BadByte => SyntaxKind::BadByte,
        SyntaxFault::Unexpected => SyntaxKind::Unexpected,
        SyntaxFault::EndOfInput => SyntaxKind::EndOfInput,
    }
}
