//! Answers the commands of a text and writes the replies.

ghost use Rattle.std.specs.Prelude.{◌≡◌, ◌≤◌, ◌++◌, ℕ, [], true, false, None, Ok, length, take, OnOk, IfOk, IfErr, OnErr};
ghost use Rattle.yices_grammar.specs.Commands as grammar;
ghost use Rattle.yices_grammar.specs.Commands.{exit};
ghost use Rattle.yices_grammar.specs.Texts.{Reads, BeginsWith};
ghost use Rattle.yices_commands.specs.Plain.{plain_action, plain_command};
ghost use Rattle.yices_text.specs.View.{says, listed, HoldsNoMore};
ghost use Rattle.yices_session.specs.Answers.{Answers, Refuses};
ghost use Rattle.yices_session.specs.Held.{Held, Stands};
ghost use Rattle.yices_session.specs.Replies.{reply_text};
ghost use Rattle.yices_session.specs.State.{State, IsStart};
ghost use Rattle.yices_cli.specs.declared.answering.Turn.TheVariants.{End, Left, On};
ghost use Rattle.yices_cli.specs.declared.exit.Exit.TheVariants.{Done, NoMemory};
ghost use Rattle.yices_cli.specs.declared.words.Mode.TheVariants.{Language};
ghost use Rattle.yices_cli.specs.Parts.{is_finished, EndsSo};
ghost use Rattle.yices_cli.specs.Turns.{IsUnanswered, IsUnread, HasNoFault, IsReplied, IsLeaving, IsUnreplied, AnswersNext, LeavesNext, IsReadOut, IsFailed};

use crate::exit::{Exit, LongKind};
use crate::reading::TextEnd;
use crate::writing::write_text;
use std::alloc::Global;
use y_io::Sink;
use yices_session::{Reply, Session, Stop, Turns};
use yices_text::{Action, Command, ReadError, Reader};

// What a turn of the run came to.
enum Turn {
    // The text that was fed holds no more whole command, and no fault.
    End,
    // The command was `exit`.
    Left,
    // The command was answered, and its reply written.
    On,
}

/// Answers the commands of a text, from an empty session on, each before the next is read and each check
/// within so many turns, and writes each reply whole before the next command. It takes O(n) steps for
/// the n bytes of the text, besides those of the answers, and keeps no list of commands.
pub fn answer_commands<K: Sink>(
    alloc: Global,
    text: &[u8],
    end: TextEnd,
    turns: Turns,
    out: &mut K,
) -> Result<(), Exit>
    ensures done { OnOk result (EndsSo (Language turns) end text.now (record { old = K.written out.old; new = K.written out.new; before = K.faults out.old; after = K.faults out.new }) Done) }
    ensures stopped { IfErr result (EndsSo (Language turns) end text.now (record { old = K.written out.old; new = K.written out.new; before = K.faults out.old; after = K.faults out.new })) }
{
    let mut reader = Reader::new(alloc);
    feed(&mut reader, text, end)?;
    answer_all(alloc, &mut reader, end, turns, out)?;
    Ok(())
}

// Feeds the text to a reader that was fed nothing, and finishes it where the input ended.
fn feed(reader: &mut Reader, text: &[u8], end: TextEnd) -> Result<(), Exit>
    requires fresh { reader.old.fed ≡ [] }
    requires unfinished { reader.old.finished ≡ false }
    ensures fed { OnOk result (reader.new.fed ≡ text.now) }
    ensures finished { OnOk result (reader.new.finished ≡ is_finished end) }
    ensures answered { OnOk result (reader.new.answered ≡ reader.old.answered) }
    ensures cause { IfErr result (λ e. e ≡ NoMemory) }
{
    if reader.feed(text).is_err() {
        return Err(Exit::NoMemory);
    }
    if end == TextEnd::InputEnd {
        reader.finish();
    }
    Ok(())
}

// Answers the commands of the text that was fed.
fn answer_all<K: Sink>(
    alloc: Global,
    reader: &mut Reader,
    end: TextEnd,
    turns: Turns,
    out: &mut K,
) -> Result<(), Exit>
    requires fresh { reader.old.answered ≡ [] }
    requires finished { reader.old.finished ≡ is_finished end }
    ensures done { OnOk result (EndsSo (Language turns) end reader.old.fed (record { old = K.written out.old; new = K.written out.new; before = K.faults out.old; after = K.faults out.new }) Done) }
    ensures stopped { IfErr result (EndsSo (Language turns) end reader.old.fed (record { old = K.written out.old; new = K.written out.new; before = K.faults out.old; after = K.faults out.new })) }
{
    let mut session = start(alloc, turns)?;
    'commands: loop {
        match take_turn(reader, &mut session, out)? {
            Turn::On => {}
            Turn::Left => return Ok(()),
            Turn::End => break,
        }
    }
    match end {
        TextEnd::InputEnd => Ok(()),
        TextEnd::ReadFault => Err(Exit::ReadFault),
        TextEnd::Limit => Err(Exit::TooLong(LongKind::Bytes)),
    }
}

// An empty session, with that limit of turns for each check.
fn start(alloc: Global, turns: Turns) -> Result<Session, Exit>
    ensures turns { IfOk result (λ session. session.turns ≡ turns) }
    ensures start { IfOk result (λ session. (s : State) × IsStart s × Stands session s) }
    ensures cause { IfErr result (λ e. e ≡ NoMemory) }
{
    match Session::new(alloc, turns) {
        Ok(session) => Ok(session),
        Err(_) => Err(Exit::NoMemory),
    }
}

// Answers the next command of the text, where there is one.
fn take_turn<K: Sink>(reader: &mut Reader, session: &mut Session, out: &mut K) -> Result<Turn, Exit>
    ensures fed { reader.new.fed ≡ reader.old.fed }
    ensures finished { reader.new.finished ≡ reader.old.finished }
    ensures later { K.faults out.old ≤ K.faults out.new }
    ensures on { IfOk result (λ t. t ≡ On → AnswersNext reader.old.fed (says reader.old.answered) (says reader.new.answered) session.old session.new (K.written out.old) (K.written out.new)) }
    ensures left { IfOk result (λ t. t ≡ Left → LeavesNext reader.old.fed (says reader.old.answered) (K.written out.old) (K.written out.new)) }
    ensures end { IfOk result (λ t. t ≡ End → IsReadOut reader.old.finished reader.old.fed (says reader.old.answered) (K.written out.old) (K.written out.new)) }
    ensures failed { IfErr result (IsFailed reader.old.finished reader.old.fed (says reader.old.answered) session.old (record { old = K.written out.old; new = K.written out.new; before = K.faults out.old; after = K.faults out.new })) }
{
    let Some(command) = next(reader)? else {
        return Ok(Turn::End);
    };
    if act(session, command, out)? {
        Ok(Turn::On)
    } else {
        Ok(Turn::Left)
    }
}

// Answers a command and writes its reply, and says that the run goes on; at `exit` it does neither.
fn act<K: Sink>(session: &mut Session, command: Command, out: &mut K) -> Result<bool, Exit>
    ensures later { K.faults out.old ≤ K.faults out.new }
    ensures on { IfOk result (λ on. on ≡ true → IsReplied session.old (plain_command command) (K.written out.old) (K.written out.new) session.new) }
    ensures left { IfOk result (λ on. on ≡ false → IsLeaving (plain_command command) (K.written out.old) (K.written out.new)) }
    ensures failed { IfErr result (IsUnreplied session.old (plain_command command) (record { old = K.written out.old; new = K.written out.new; before = K.faults out.old; after = K.faults out.new })) }
{
    if is_exit(&command) {
        return Ok(false);
    }
    let reply = answer(session, command)?;
    write_text(out, reply.text())?;
    Ok(true)
}

// The next command of the text.
fn next(reader: &mut Reader) -> Result<Option<Command>, Exit>
    ensures fed { reader.new.fed ≡ reader.old.fed }
    ensures finished { reader.new.finished ≡ reader.old.finished }
    ensures answered { IfOk result (λ r. reader.new.answered ≡ reader.old.answered ++ listed r) }
    ensures got { IfOk result (λ r. BeginsWith reader.old.fed (says (reader.old.answered ++ listed r))) }
    ensures whole { IfOk result (λ r. r ≡ None → reader.old.finished ≡ true → Reads reader.old.fed (says reader.old.answered)) }
    ensures waiting { IfOk result (λ r. r ≡ None → reader.old.finished ≡ false → HoldsNoMore reader.old.fed (says reader.old.answered)) }
    ensures right { OnOk result (HasNoFault reader.old.finished reader.old.fed (says reader.old.answered)) }
    ensures unread { IfErr result (IsUnread reader.old.finished reader.old.fed (says reader.old.answered)) }
{
    match reader.next() {
        Ok(command) => Ok(command),
        Err(ReadError::Syntax(error)) => Err(Exit::Syntax(error)),
        Err(ReadError::Nesting(place)) => Err(Exit::TooLong(LongKind::Nesting(place))),
        Err(ReadError::NoMemory) => Err(Exit::NoMemory),
    }
}

// Whether the run ends with the command.
fn is_exit(command: &Command) -> bool
    ensures exits { result ≡ true → plain_action command.now.action ≡ exit }
    ensures goes_on { result ≡ false → plain_action command.now.action ≡ exit → ⊥ }
{
    matches!(command.action, Action::Exit)
}

// Answers a command, or says which exit it is without a reply.
fn answer(session: &mut Session, command: Command) -> Result<Reply, Exit>
    ensures step { IfOk result (λ r. Answers (plain_command command) session.old (reply_text r) session.new) }
    ensures cause { IfErr result (IsUnanswered session.old (plain_command command)) }
{
    outcome(session.answer(&command))
}

// The reply to a command, or which exit the program ends with where it has none.
fn outcome(answer: Result<Reply, Stop>) -> Result<Reply, Exit>
    ensures reply { IfOk result (λ r. answer ≡ Ok r) }
    ensures stop { (old new : Held) (c : grammar.Command) → IfErr answer (λ why. Refuses c old why new) → IfErr result (IsUnanswered old c) }
{
    match answer {
        Ok(reply) => Ok(reply),
        Err(stop) => Err(exit_of(stop)),
    }
}

// The exit where a command has no reply.
fn exit_of(stop: Stop) -> Exit
    ensures { (old new : Held) (c : grammar.Command) → Refuses c old stop new → IsUnanswered old c result }
{
    match stop {
        Stop::Refused(place, refusal) => Exit::Refused(place, refusal),
        Stop::NoMemory => Exit::NoMemory,
    }
}
