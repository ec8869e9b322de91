//! What follows for lines one after another. These functions do nothing.
ghost use Rattle.std.specs.Prelude.{◌≡◌, ◌⊎◌, ◌++◌, ◌∷◌, [], ℕ, List, Option, None};
ghost use Rattle.yices_api.specs.declared.calls.Call.{Call};
ghost use Rattle.yices_api.specs.declared.replies.Reply.{Reply};
ghost use Rattle.yices_api.specs.Runs.{IsWorld, Lasts, Runs};
ghost use Rattle.yices_grammar.specs.declared.Place.{Place};
ghost use Rattle.call_script.specs.declared.lines.LineEnd.{LineEnd};
ghost use Rattle.call_script.specs.declared.lines.LineEnd.TheVariants.{Open};
ghost use Rattle.call_script.specs.declared.words.CallWord.{CallWord};
ghost use Rattle.call_script.specs.Lines.{HasForm, Written};
ghost use Rattle.term_table.specs.World.{World};
ghost use Rattle.yices_api.specs.declared.replies.CallError.{CallError};
ghost use Rattle.yices_api.specs.declared.replies.Reply.TheVariants.{NoMemory};
ghost use Rattle.yices_api.specs.Printing.{IsPrintable};
ghost use Rattle.yices_api.specs.State.{State};
ghost use Rattle.script_session.specs.declared.meant.Gave.{Gave};
ghost use Rattle.script_session.specs.Asking.{AsksFor, IsRefusedAsWritten};
ghost use Rattle.script_session.specs.Replies.{Prints};
ghost use Rattle.script_session.specs.State.{Script};
ghost use Rattle.script_session.specs.declared.stop.ScriptStop.{ScriptStop};
ghost use Rattle.script_session.specs.declared.stop.ScriptStop.TheVariants.{TooLong};
ghost use Rattle.script_session.specs.Steps.{Answers, IsFault, Stops};
ghost use Rattle.script_session.specs.Runs.{ScriptLine, Run, calls_of, replies_of};

use call_script::a_line_says_one_thing;
use term_texts::one_text;
use yices_api::runs_last;

/// The calls that lines do, in order, are a run of the environment; so what a handle stands for stays until it is freed.
#[tactic(auto, using(crate::proofs::Running::run_runs, crate::proofs::Running::run_world))]
pub fn script_runs()
    ensures runs { (first last : Script) (ls : List ScriptLine) (ds : List (Option (Call × Reply))) (texts : List (List ℕ)) → Run first ls ds texts last → Runs first.env (calls_of ds) (replies_of ds) last.env }
    ensures world { (first last : Script) (ls : List ScriptLine) (ds : List (Option (Call × Reply))) (texts : List (List ℕ)) → IsWorld first.env → Run first ls ds texts last → IsWorld last.env }
    ensures lasts { (first last : Script) (ls : List ScriptLine) (ds : List (Option (Call × Reply))) (texts : List (List ℕ)) → IsWorld first.env → Run first ls ds texts last → Lasts first.env.table last.env.table }
{
    runs_last();
}

/// A run goes on by one line.
#[tactic(auto, using(crate::proofs::Running::run_more))]
pub fn one_more_line()
    ensures { (first mid last : Script) (ls : List ScriptLine) (ds : List (Option (Call × Reply))) (texts : List (List ℕ)) (l : ScriptLine) (d : Option (Call × Reply)) (text : List ℕ) → Run first ls ds texts mid → Answers mid l.end l.bytes d text last → Run first (ls ++ l ∷ []) (ds ++ d ∷ []) (texts ++ text ∷ []) last }
{}

/// An open line has no number: nothing is said, and nothing changes.
#[tactic(auto, using(crate::proofs::Running::open_waits))]
pub fn open_lines()
    ensures { (old new : Script) (bytes said : List ℕ) (d : Option (Call × Reply)) → Answers old Open bytes d said new → (d ≡ None) × (said ≡ []) × (new ≡ old) }
{}

/// A line that can't be read is never answered, nor is its reply too long; and one fault is told of it.
pub fn faults_are_exact()
    ensures not_answered { (old new : Script) (end : LineEnd) (bytes said : List ℕ) (d : Option (Call × Reply)) (s : ScriptStop) → IsFault s → Stops old end bytes s → Answers old end bytes d said new → ⊥ }
    ensures not_too_long { (old : Script) (end : LineEnd) (bytes : List ℕ) (s : ScriptStop) (place : Place) → IsFault s → Stops old end bytes s → Stops old end bytes (TooLong place) → ⊥ }
    ensures one { (old : Script) (end : LineEnd) (bytes : List ℕ) (s t : ScriptStop) → IsFault s → IsFault t → Stops old end bytes s → Stops old end bytes t → s ≡ t }
{
    a_line_says_one_thing();
}

/// A call as written asks one thing, and only one: it is refused for what its arguments stand for, or it is a call of the
/// environment.
pub fn one_is_asked()
    ensures some { (given : List Gave) (word : CallWord) (arguments : List Written) → HasForm word arguments → ((e : CallError) × IsRefusedAsWritten given word arguments e) ⊎ ((c : Call) × AsksFor given word arguments c) }
    ensures refusals { (given : List Gave) (word : CallWord) (arguments : List Written) (d e : CallError) → IsRefusedAsWritten given word arguments d → IsRefusedAsWritten given word arguments e → d ≡ e }
    ensures calls { (given : List Gave) (word : CallWord) (arguments : List Written) (c d : Call) → AsksFor given word arguments c → AsksFor given word arguments d → c ≡ d }
    ensures not_both { (given : List Gave) (word : CallWord) (arguments : List Written) (e : CallError) (c : Call) → IsRefusedAsWritten given word arguments e → AsksFor given word arguments c → ⊥ }
{}

/// A reply has one text, where what it names is live and memory wasn't refused.
pub fn one_text_of_a_reply()
    ensures has { (s : State) (r : Reply) → IsWorld s → IsPrintable s r → (r ≡ NoMemory → ⊥) → (text : List ℕ) × Prints s.table r text }
    ensures one { (w : World) (r : Reply) (x y : List ℕ) → Prints w r x → Prints w r y → x ≡ y }
{
    one_text();
}
