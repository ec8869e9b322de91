//! Lists that grow, where memory may be refused.
ghost use Rattle.std.specs.Prelude.{◌≡◌, ◌++◌, ◌∷◌, [], IfErr, OnOk, OnErr};
ghost use Rattle.yices_session.specs.Parts.{IsMore};
ghost use Rattle.expression_terms.specs.declared.refusal.Stop.TheVariants.{NoMemory};

use expression_terms::Stop;
use term_table::Term;

/// Adds an item at the end.
///
/// # Errors
///
/// `NoMemory`. Then nothing is added.
pub(crate) fn append<T: Drop>(list: &mut Vec<T>, item: T) -> Result<(), Stop>
    ensures ok { OnOk result (list.new.items ≡ list.old.items ++ item ∷ []) }
    ensures err { OnErr result (list.new.items ≡ list.old.items) }
    ensures cause { IfErr result (λ e. e ≡ NoMemory) }
{
    match list.push(item) {
        Ok(()) => Ok(()),
        Err(_) => Err(Stop::NoMemory),
    }
}

/// Adds terms at the end.
///
/// # Errors
///
/// `NoMemory`. Then some may be there already.
pub(crate) fn append_all(terms: &mut Vec<Term>, more: &[Term]) -> Result<(), Stop>
    ensures ok { OnOk result (terms.new.items ≡ terms.old.items ++ more.now) }
    ensures err { OnErr result (IsMore terms.old.items terms.new.items) }
    ensures cause { IfErr result (λ e. e ≡ NoMemory) }
{
    for t in more {
        append(terms, *t)?;
    }
    Ok(())
}
