//! What follows for calls one after another. These functions do nothing.
ghost use Rattle.std.specs.Prelude.{◌≡◌, ◌++◌, ◌∷◌, [], ℕ, List, Some, IsSome, slice_get};
ghost use Rattle.term_shapes.specs.declared.handles.Term.{Term};
ghost use Rattle.term_shapes.specs.declared.handles.TypeId.{TypeId};
ghost use Rattle.term_table.specs.World.{node_at, IsFreedTerm, IsFreedType};
ghost use Rattle.yices_api.specs.declared.calls.Call.{Call};
ghost use Rattle.yices_api.specs.declared.handles.ContextId.{ContextId};
ghost use Rattle.yices_api.specs.declared.replies.Reply.{Reply};
ghost use Rattle.yices_api.specs.declared.replies.Reply.TheVariants as reply;
ghost use Rattle.yices_api.specs.State.{State, IsFreedContext};
ghost use Rattle.yices_api.specs.Calls.{Handle, handles_of, made_by, of_context, of_term, of_type};
ghost use Rattle.yices_api.specs.Steps.{Api, RefusesDead};
ghost use Rattle.yices_api.specs.Runs.{IsWorld, Lasts, Reaches, Runs};

use term_build::one_answer;

/// What a live handle stood for before a call it stands for after it, or it was freed; a freed handle stays freed, and a
/// call that has one is refused by the first dead handle.
#[tactic(auto, using(crate::proofs::Lasting::step_lasts, crate::proofs::Lasting::step_freed, crate::proofs::Lasting::freed_term_refused, crate::proofs::Lasting::freed_type_refused, crate::proofs::Lasting::freed_context_refused))]
pub fn steps_last()
    ensures lasts { (old new : State) (c : Call) (r : Reply) → IsWorld old → Api old c r new → Lasts old.table new.table }
    ensures contexts { (old new : State) (c : Call) (r : Reply) (h : ContextId) → Api old c r new → IsFreedContext old h → IsFreedContext new h }
    ensures refused_term { (old new : State) (c : Call) (r : Reply) (t : Term) (i place : ℕ) → IsFreedTerm old.table t → slice_get (handles_of c) i ≡ Some (place, of_term t) → Api old c r new → RefusesDead (handles_of c) old r new }
    ensures refused_type { (old new : State) (c : Call) (r : Reply) (t : TypeId) (i place : ℕ) → IsFreedType old.table t → slice_get (handles_of c) i ≡ Some (place, of_type t) → Api old c r new → RefusesDead (handles_of c) old r new }
    ensures refused_context { (old new : State) (c : Call) (r : Reply) (h : ContextId) (i place : ℕ) → IsFreedContext old h → slice_get (handles_of c) i ≡ Some (place, of_context h) → Api old c r new → RefusesDead (handles_of c) old r new }
{}

/// So it is after any list of calls.
#[tactic(auto, using(crate::proofs::Lasting::runs_last_tables, crate::proofs::Lasting::runs_freed))]
pub fn runs_last()
    ensures lasts { (first last : State) (cs : List Call) (rs : List Reply) → IsWorld first → Runs first cs rs last → Lasts first.table last.table }
    ensures contexts { (first last : State) (cs : List Call) (rs : List Reply) (h : ContextId) → Runs first cs rs last → IsFreedContext first h → IsFreedContext last h }
{}

/// A list of calls goes on by one more.
#[tactic(auto, using(crate::proofs::Lasting::one_more))]
pub fn one_more_step()
    ensures { (first mid last : State) (cs : List Call) (rs : List Reply) (c : Call) (r : Reply) → Runs first cs rs mid → Reaches mid c r last → Runs first (cs ++ c ∷ []) (rs ++ r ∷ []) last }
{}

/// A constructor with the same arguments replies the same handle while that is live, whatever calls come between.
pub fn same_again()
    ensures { (first mid last end : State) (c : Call) (cs : List Call) (rs : List Reply) (t u : Term) → IsWorld first → IsSome (made_by c) → Reaches first c (reply.Term t) mid → Runs mid cs rs last → IsSome (node_at last.table t) → Reaches last c (reply.Term u) end → u ≡ t }
{
    one_answer();
}
