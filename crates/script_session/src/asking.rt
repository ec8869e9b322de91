//! From a call as written to the call that is asked.
ghost use Rattle.std.specs.Prelude.{◌≡◌, ℕ, IfErr, IfNone, IfOk, IfSome, Some, slice_get, true};
ghost use Rattle.call_script.specs.Calls.{kind_at as kind_of};
ghost use Rattle.call_script.specs.Lines.{HasForm};
ghost use Rattle.call_script.specs.Results.{all_written, written};
ghost use Rattle.script_session.specs.declared.asking.NotAsked.TheVariants.{NoMemory};
ghost use Rattle.script_session.specs.declared.meant.Meant.{Meant};
ghost use Rattle.script_session.specs.Asking as asking;
ghost use Rattle.script_session.specs.Asking.{AllMean, AsksFor, IsFirstOfWrongKind, RefusesAsking, RefusesMeaning};

use crate::calls::call_of;
use crate::meant::{Gave, Handle, Meant};
use call_script::{Argument, ArgumentKind, CallWord, kind_at};
use std::alloc::{AllocError, AllocFailed, Global};
use yices_api::{Call, CallError, Turns};

/// Why no call is asked.
#[derive(Clone, Copy, Debug, PartialEq, Eq, Drop)]
pub enum NotAsked {
    /// The call is refused for what its arguments stand for.
    Refused(CallError),
    /// Memory was refused.
    NoMemory,
}

impl From<AllocError> for NotAsked {
    ghost from_gives = { λ _ e. e ≡ NoMemory };

    fn from(_error: AllocError) -> NotAsked {
        NotAsked::NoMemory
    }
}

impl<T: Drop> From<AllocFailed<T>> for NotAsked {
    ghost from_gives = { λ _ e. e ≡ NoMemory };

    fn from(_error: AllocFailed<T>) -> NotAsked {
        NotAsked::NoMemory
    }
}

/// The call that is asked, by what each line gave. It is refused for the least argument without a result, or else for the
/// least one of a wrong kind.
pub(crate) fn asked(
    alloc: Global,
    given: &[Gave],
    word: CallWord,
    arguments: &[Argument],
) -> Result<Call, NotAsked>
    requires { HasForm word (all_written arguments.now) }
    ensures ok { IfOk result (λ call. AsksFor given.now word (all_written arguments.now) call) }
    ensures refused { IfErr result (λ e. RefusesAsking given.now word (all_written arguments.now) e) }
{
    let ms = meanings(alloc, given, arguments)?;
    match first_of_wrong_kind(word, &ms) {
        Some(index) => Err(NotAsked::Refused(CallError::WrongKind(index + 1))),
        None => match call_of(alloc, word, &ms)? {
            Some(call) => Ok(call),
            None => unreachable!(),
        },
    }
}

/// What the arguments stand for.
fn meanings(alloc: Global, given: &[Gave], arguments: &[Argument]) -> Result<Vec<Meant>, NotAsked>
    ensures ok { IfOk result (λ ms. AllMean given.now (all_written arguments.now) ms.items) }
    ensures refused { IfErr result (λ e. RefusesMeaning given.now (all_written arguments.now) e) }
{
    let mut ms = Vec::new(alloc);
    for (i, argument) in arguments.iter().enumerate() {
        match meaning(given, argument)? {
            Some(m) => ms.push(m)?,
            None => return Err(NotAsked::Refused(CallError::NoResult(i + 1))),
        }
    }
    Ok(ms)
}

/// What an argument stands for, where it has a result.
fn meaning(given: &[Gave], argument: &Argument) -> Result<Option<Meant>, AllocError>
    ensures { IfOk result (λ m. m ≡ asking.meaning given.now (written argument.now)) }
{
    match argument {
        Argument::Reference(line) => Ok(handle_of_line(given, *line).map(Meant::Handle)),
        Argument::Entry(line, entry) => Ok(entry_of_line(given, *line, *entry).map(Meant::Handle)),
        Argument::Flag(flag) => Ok(Some(Meant::Flag(*flag))),
        Argument::Limit(limit) => Ok(Some(Meant::Turns(turns_of(*limit)))),
        Argument::Name(name) => Ok(Some(Meant::Name(name.clone()?))),
    }
}

/// The handle that a line gave, counted from 1.
fn handle_of_line(given: &[Gave], line: u64) -> Option<Handle>
    ensures { result ≡ asking.handle_in (asking.given_by_line given.now line) }
{
    if line == 0 {
        return None;
    }
    match given.get((line - 1) as usize) {
        Some(gave) => handle_in(gave),
        None => None,
    }
}

/// An entry of the list that a line gave; both count from 1.
fn entry_of_line(given: &[Gave], line: u64, entry: u64) -> Option<Handle>
    ensures { result ≡ asking.entry_in (asking.given_by_line given.now line) entry }
{
    if line == 0 {
        return None;
    }
    let gave = given.get((line - 1) as usize)?;
    entry_in(gave, entry)
}

fn handle_in(gave: &Gave) -> Option<Handle>
    ensures { result ≡ asking.handle_in gave.now }
{
    match gave {
        Gave::Handle(handle) => Some(*handle),
        Gave::Nothing | Gave::Terms(_) => None,
    }
}

fn entry_in(gave: &Gave, entry: u64) -> Option<Handle>
    ensures { result ≡ asking.entry_in gave.now entry }
{
    let Gave::Terms(terms) = gave else {
        return None;
    };
    if entry == 0 {
        return None;
    }
    let term = terms.as_slice().get((entry - 1) as usize)?;
    Some(Handle::Term(*term))
}

fn turns_of(limit: Option<u64>) -> Turns
    ensures { result ≡ asking.turns_of limit }
{
    match limit {
        Some(turns) => Turns::Counted(turns),
        None => Turns::Whole,
    }
}

/// The index of the first argument that isn't of the kind that the call takes there.
fn first_of_wrong_kind(word: CallWord, ms: &[Meant]) -> Option<usize>
    ensures found { IfSome result (λ index. IsFirstOfWrongKind word ms.now index) }
    ensures fit { IfNone result ((i : ℕ) (m : Meant) → slice_get ms.now i ≡ Some m → asking.is_of_kind (kind_of word i) m ≡ true) }
{
    for (i, m) in ms.iter().enumerate() {
        if !is_of_kind(kind_at(word, i), m) {
            return Some(i);
        }
    }
    None
}

fn is_of_kind(kind: Option<ArgumentKind>, m: &Meant) -> bool
    ensures { result ≡ asking.is_of_kind kind m.now }
{
    match kind {
        Some(ArgumentKind::Type) => is_type(m),
        Some(ArgumentKind::Term) => is_term(m),
        Some(ArgumentKind::Context) => is_context(m),
        Some(ArgumentKind::TypeOrTerm) => is_type(m) || is_term(m),
        Some(ArgumentKind::Flag) => is_flag(m),
        Some(ArgumentKind::Turns) => is_limit(m),
        Some(ArgumentKind::Name) => is_name(m),
        None => false,
    }
}

fn is_type(m: &Meant) -> bool
    ensures { result ≡ asking.is_type m.now }
{
    matches!(m, Meant::Handle(Handle::TypeId(_)))
}

fn is_term(m: &Meant) -> bool
    ensures { result ≡ asking.is_term m.now }
{
    matches!(m, Meant::Handle(Handle::Term(_)))
}

fn is_context(m: &Meant) -> bool
    ensures { result ≡ asking.is_context m.now }
{
    matches!(m, Meant::Handle(Handle::Context(_)))
}

fn is_flag(m: &Meant) -> bool
    ensures { result ≡ asking.is_flag m.now }
{
    matches!(m, Meant::Flag(_))
}

fn is_limit(m: &Meant) -> bool
    ensures { result ≡ asking.is_limit m.now }
{
    matches!(m, Meant::Turns(_))
}

fn is_name(m: &Meant) -> bool
    ensures { result ≡ asking.is_name m.now }
{
    matches!(m, Meant::Name(_))
}
