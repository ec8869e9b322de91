//! The call of a word with what its arguments stand for.
ghost use Rattle.std.specs.Prelude.{◌≡◌, IfOk};
ghost use Rattle.script_session.specs.CallTable as table;

use crate::meant::{Handle, Meant};
use call_script::CallWord;
use std::alloc::{AllocError, Global};
use yices_api::{Call, ContextId, Marked, MarkedList, Term, Terms, Text, Turns, TypeId};

/// The call of the word, where these are arguments of its form.
pub(crate) fn call_of(
    alloc: Global,
    word: CallWord,
    ms: &[Meant],
) -> Result<Option<Call>, AllocError>
    ensures { IfOk result (λ call. call ≡ table.call_of word ms.now) }
{
    match word {
        CallWord::BoolType => Ok(bare(Call::BoolType, ms)),
        CallWord::True => Ok(bare(Call::True, ms)),
        CallWord::False => Ok(bare(Call::False, ms)),
        CallWord::NewUninterpretedTerm => Ok(one_type(ms).map(Call::NewUninterpretedTerm)),
        CallWord::NewVariable => Ok(one_type(ms).map(Call::NewVariable)),
        CallWord::Not => Ok(one_term(ms).map(Call::Not)),
        CallWord::And => Ok(all_terms(alloc, ms)?.map(Call::And)),
        CallWord::Or => Ok(all_terms(alloc, ms)?.map(Call::Or)),
        CallWord::Xor => Ok(all_terms(alloc, ms)?.map(Call::Xor)),
        CallWord::Implies => Ok(two_terms(ms).map(|(a, b)| Call::Implies(a, b))),
        CallWord::Iff => Ok(two_terms(ms).map(|(a, b)| Call::Iff(a, b))),
        CallWord::Ite => Ok(three_terms(ms).map(|(a, b, c)| Call::Ite(a, b, c))),
        CallWord::Eq => Ok(two_terms(ms).map(|(a, b)| Call::Eq(a, b))),
        CallWord::Neq => Ok(two_terms(ms).map(|(a, b)| Call::Neq(a, b))),
        CallWord::Distinct => Ok(all_terms(alloc, ms)?.map(Call::Distinct)),
        CallWord::TypeOfTerm => Ok(one_term(ms).map(Call::TypeOfTerm)),
        CallWord::PpTerm => Ok(one_term(ms).map(Call::PpTerm)),
        CallWord::IncrefTerm => Ok(one_term(ms).map(Call::IncrefTerm)),
        CallWord::DecrefTerm => Ok(one_term(ms).map(Call::DecrefTerm)),
        CallWord::IncrefType => Ok(one_type(ms).map(Call::IncrefType)),
        CallWord::DecrefType => Ok(one_type(ms).map(Call::DecrefType)),
        CallWord::NumTerms => Ok(bare(Call::NumTerms, ms)),
        CallWord::NumTypes => Ok(bare(Call::NumTypes, ms)),
        CallWord::GarbageCollect => Ok(flag_and_marked(alloc, ms)?.map(|(
            named,
            roots,
        )| Call::GarbageCollect(named, roots))),
        CallWord::SetTermName => Ok(named_term(ms)?.map(|(name, of)| Call::SetTermName(name, of))),
        CallWord::SetTypeName => Ok(named_type(ms)?.map(|(name, of)| Call::SetTypeName(name, of))),
        CallWord::GetTermByName => Ok(one_name(ms)?.map(Call::GetTermByName)),
        CallWord::GetTypeByName => Ok(one_name(ms)?.map(Call::GetTypeByName)),
        CallWord::GetTermName => Ok(one_term(ms).map(Call::GetTermName)),
        CallWord::GetTypeName => Ok(one_type(ms).map(Call::GetTypeName)),
        CallWord::RemoveTermName => Ok(one_name(ms)?.map(Call::RemoveTermName)),
        CallWord::RemoveTypeName => Ok(one_name(ms)?.map(Call::RemoveTypeName)),
        CallWord::NewContext => Ok(bare(Call::NewContext, ms)),
        CallWord::FreeContext => Ok(one_context(ms).map(Call::FreeContext)),
        CallWord::ResetContext => Ok(one_context(ms).map(Call::ResetContext)),
        CallWord::Push => Ok(one_context(ms).map(Call::Push)),
        CallWord::Pop => Ok(one_context(ms).map(Call::Pop)),
        CallWord::ContextStatus => Ok(one_context(ms).map(Call::ContextStatus)),
        CallWord::AssertFormula => Ok(formula_in(ms).map(|(a, b)| Call::AssertFormula(a, b))),
        CallWord::CheckContext => Ok(context_and_turns(ms).map(|(a, b)| Call::CheckContext(a, b))),
        CallWord::CheckContextWithAssumptions => Ok(check_and_terms(alloc, ms)?.map(|(
            context,
            turns,
            terms,
        )| Call::CheckContextWithAssumptions(context, turns, terms))),
        CallWord::GetUnsatCore => Ok(one_context(ms).map(Call::GetUnsatCore)),
    }
}

fn bare(call: Call, ms: &[Meant]) -> Option<Call>
    ensures { result ≡ table.bare call ms.now }
{
    match ms {
        [] => Some(call),
        _ => None,
    }
}

fn one_term(ms: &[Meant]) -> Option<Term>
    ensures { result ≡ table.one_term ms.now }
{
    match ms {
        [Meant::Handle(Handle::Term(t))] => Some(*t),
        _ => None,
    }
}

fn one_type(ms: &[Meant]) -> Option<TypeId>
    ensures { result ≡ table.one_type ms.now }
{
    match ms {
        [Meant::Handle(Handle::TypeId(t))] => Some(*t),
        _ => None,
    }
}

fn one_context(ms: &[Meant]) -> Option<ContextId>
    ensures { result ≡ table.one_context ms.now }
{
    match ms {
        [Meant::Handle(Handle::Context(c))] => Some(*c),
        _ => None,
    }
}

fn one_name(ms: &[Meant]) -> Result<Option<Text>, AllocError>
    ensures { IfOk result (λ found. found ≡ table.one_name ms.now) }
{
    match ms {
        [Meant::Name(name)] => Ok(Some(name.clone()?)),
        _ => Ok(None),
    }
}

fn two_terms(ms: &[Meant]) -> Option<(Term, Term)>
    ensures { result ≡ table.two_terms ms.now }
{
    match ms {
        [
            Meant::Handle(Handle::Term(a)),
            Meant::Handle(Handle::Term(b)),
        ] => Some((*a, *b)),
        _ => None,
    }
}

fn named_term(ms: &[Meant]) -> Result<Option<(Text, Term)>, AllocError>
    ensures { IfOk result (λ found. found ≡ table.named_term ms.now) }
{
    match ms {
        [Meant::Name(name), Meant::Handle(Handle::Term(t))] => Ok(Some((name.clone()?, *t))),
        _ => Ok(None),
    }
}

fn named_type(ms: &[Meant]) -> Result<Option<(Text, TypeId)>, AllocError>
    ensures { IfOk result (λ found. found ≡ table.named_type ms.now) }
{
    match ms {
        [Meant::Name(name), Meant::Handle(Handle::TypeId(t))] => Ok(Some((name.clone()?, *t))),
        _ => Ok(None),
    }
}

fn formula_in(ms: &[Meant]) -> Option<(ContextId, Term)>
    ensures { result ≡ table.formula_in ms.now }
{
    match ms {
        [
            Meant::Handle(Handle::Context(c)),
            Meant::Handle(Handle::Term(t)),
        ] => Some((*c, *t)),
        _ => None,
    }
}

fn three_terms(ms: &[Meant]) -> Option<(Term, Term, Term)>
    ensures { result ≡ table.three_terms ms.now }
{
    match ms {
        [
            Meant::Handle(Handle::Term(a)),
            Meant::Handle(Handle::Term(b)),
            Meant::Handle(Handle::Term(c)),
        ] => Some((*a, *b, *c)),
        _ => None,
    }
}

fn all_terms(alloc: Global, ms: &[Meant]) -> Result<Option<Terms>, AllocError>
    ensures { IfOk result (λ found. found ≡ table.all_terms ms.now) }
{
    let mut terms = Terms::new(alloc);
    for m in ms {
        let Meant::Handle(Handle::Term(t)) = m else {
            return Ok(None);
        };
        terms.push(*t)?;
    }
    Ok(Some(terms))
}

fn context_and_turns(ms: &[Meant]) -> Option<(ContextId, Turns)>
    ensures { result ≡ table.context_and_turns ms.now }
{
    match ms {
        [Meant::Handle(Handle::Context(c)), Meant::Turns(turns)] => Some((*c, *turns)),
        _ => None,
    }
}

fn check_and_terms(
    alloc: Global,
    ms: &[Meant],
) -> Result<Option<(ContextId, Turns, Terms)>, AllocError>
    ensures { IfOk result (λ found. found ≡ table.check_and_terms ms.now) }
{
    match ms {
        [
            Meant::Handle(Handle::Context(c)),
            Meant::Turns(turns),
            terms @ ..,
        ] => Ok(all_terms(alloc, terms)?.map(|terms| (*c, *turns, terms))),
        _ => Ok(None),
    }
}

fn all_marked(alloc: Global, ms: &[Meant]) -> Result<Option<MarkedList>, AllocError>
    ensures { IfOk result (λ found. found ≡ table.all_marked ms.now) }
{
    let mut roots = MarkedList::new(alloc);
    for m in ms {
        let root = match m {
            Meant::Handle(Handle::Term(t)) => Marked::Term(*t),
            Meant::Handle(Handle::TypeId(t)) => Marked::TypeId(*t),
            _ => return Ok(None),
        };
        roots.push(root)?;
    }
    Ok(Some(roots))
}

fn flag_and_marked(alloc: Global, ms: &[Meant]) -> Result<Option<(bool, MarkedList)>, AllocError>
    ensures { IfOk result (λ found. found ≡ table.flag_and_marked ms.now) }
{
    match ms {
        [Meant::Flag(flag), roots @ ..] => Ok(all_marked(alloc, roots)?.map(|roots| (
            *flag, roots,
        ))),
        _ => Ok(None),
    }
}
