//! The step of the interface.
ghost use Rattle.yices_api.specs.Printing.{IsPrintable};
ghost use Rattle.yices_api.specs.Runs.{IsWorld};
ghost use Rattle.yices_api.specs.Steps.{Api};

use crate::calls::Call;
use crate::env::Env;
use crate::replies::Reply;
use term_sketches::Operator;

/// One call. A call with a dead handle is refused by the first one, and changes nothing; a refused constructor may leave
/// new terms, and every other refused call changes nothing. Types and variables that the reply names are live.
///
/// # Errors
///
/// `Refused`, with the reason that the call's line of the relation gives; `NoMemory`.
pub fn step(env: &mut Env, call: &Call) -> Reply
    ensures step { Api env.old call.now result env.new }
    ensures world { IsWorld env.new }
    ensures printable { IsPrintable env.new result }
{
    let reply = answer(env, call);
    env.is_world();
    reply
}

fn answer(env: &mut Env, call: &Call) -> Reply
    ensures { Api env.old call.now result env.new }
{
    match call {
        Call::BoolType => env.bool_type(),
        Call::True => env.true_term(),
        Call::False => env.false_term(),
        Call::NewUninterpretedTerm(of) => env.new_constant(*of),
        Call::NewVariable(of) => env.new_variable(*of),
        Call::Not(a) => env.build(Operator::Not, &[*a]),
        Call::And(terms) => env.build(Operator::And, terms.as_slice()),
        Call::Or(terms) => env.build(Operator::Or, terms.as_slice()),
        Call::Xor(terms) => env.build(Operator::Xor, terms.as_slice()),
        Call::Implies(a, b) => env.build(Operator::Implies, &[*a, *b]),
        Call::Iff(a, b) => env.build(Operator::Iff, &[*a, *b]),
        Call::Ite(test, a, b) => env.build(Operator::Ite, &[*test, *a, *b]),
        Call::Eq(a, b) => env.build(Operator::Eq, &[*a, *b]),
        Call::Neq(a, b) => env.build(Operator::Neq, &[*a, *b]),
        Call::Distinct(terms) => env.build(Operator::Distinct, terms.as_slice()),
        Call::TypeOfTerm(t) => env.type_of_term(*t),
        Call::PpTerm(t) => env.pp_term(*t),
        Call::IncrefTerm(t) => env.incref_term(*t),
        Call::DecrefTerm(t) => env.decref_term(*t),
        Call::IncrefType(t) => env.incref_type(*t),
        Call::DecrefType(t) => env.decref_type(*t),
        Call::NumTerms => env.num_terms(),
        Call::NumTypes => env.num_types(),
        Call::GarbageCollect(named, roots) => env.garbage_collect(*named, roots.as_slice()),
        Call::SetTermName(name, t) => env.set_term_name(name.as_str(), *t),
        Call::SetTypeName(name, t) => env.set_type_name(name.as_str(), *t),
        Call::GetTermByName(name) => env.term_by_name(name.as_str()),
        Call::GetTypeByName(name) => env.type_by_name(name.as_str()),
        Call::GetTermName(t) => env.term_name(*t),
        Call::GetTypeName(t) => env.type_name(*t),
        Call::RemoveTermName(name) => env.remove_term_name(name.as_str()),
        Call::RemoveTypeName(name) => env.remove_type_name(name.as_str()),
        Call::NewContext => env.new_context(),
        Call::FreeContext(id) => env.free_context(*id),
        Call::ResetContext(id) => env.reset_context(*id),
        Call::Push(id) => env.push(*id),
        Call::Pop(id) => env.pop(*id),
        Call::ContextStatus(id) => env.context_status(*id),
        Call::AssertFormula(id, t) => env.assert_formula(*id, *t),
        Call::CheckContext(id, turns) => env.check_context(*id, *turns),
        Call::CheckContextWithAssumptions(id, turns, assumed) => {
            env.check_context_with_assumptions(*id, *turns, assumed.as_slice())
        }
        Call::GetUnsatCore(id) => env.unsat_core(*id),
    }
}
