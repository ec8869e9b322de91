//! Which values are those of a sort.
ghost use Rattle.std.specs.Prelude.{◌≡◌, ◌^◌, ◌&&◌, nat_lt};
ghost use Rattle.y_tree.specs.Values.{has_sort, have_sorts, have_sort};
ghost use Rattle.y_tree.specs.Plain.{plain_sort, plain_sorts, plain_value, plain_values, plain_entry, plain_entries};

use y_tree::{Entry, Sort, Value};

/// Whether the bits are those of a bit-vector of that width.
#[tactic(auto, using(crate::proofs::Fitting::below_some, crate::proofs::Fitting::below_all))]
fn is_below(bits: u128, width: u32) -> bool
    ensures { result ≡ nat_lt bits (2 ^ width) }
{
    match 1u128.checked_shl(width) {
        Some(limit) => bits < limit,
        None => true,
    }
}

/// Whether the value is one of the sort. The time is linear in the value.
#[cycle(fits)]
#[tactic(auto, unfolding(y_tree::specs::Plain::plain_value, y_tree::specs::Plain::plain_sort, y_tree::specs::Values::has_sort))]
pub(crate) fn has_sort(value: &Value, of: &Sort) -> bool
    ensures { result ≡ has_sort (plain_value value.now) (plain_sort of.now) }
{
    match (value, of) {
        (Value::Bool(_), Sort::Bool) => true,
        (Value::Real(_), Sort::Real) => true,
        (Value::Bv { width, bits }, Sort::Bv(wanted)) => {
            *width == *wanted && is_below(*bits, *wanted)
        }
        (Value::Elem { kind, .. }, Sort::Free(wanted)) => *kind == *wanted,
        (Value::Fun(f), Sort::Fun(domain, codomain)) => {
            have_sort(f.entries(), domain.as_slice(), codomain.get())
                && has_sort(f.default_value(), codomain.get())
        }
        _ => false,
    }
}

/// Whether the keys of the entries are of these sorts, and their values of that one.
#[cycle(fits)]
#[tactic(auto, using(crate::proofs::Fitting::entries_skip, crate::proofs::Fitting::entries_stop, crate::proofs::Fitting::entries_ended))]
fn have_sort(entries: &[Entry], domain: &[Sort], codomain: &Sort) -> bool
    ensures { result ≡ have_sort (plain_entries entries.now) (plain_sorts domain.now) (plain_sort codomain.now) }
{
    for i in 0..entries.len() {
        if !entry_fits(&entries[i], domain, codomain) {
            return false;
        }
    }
    true
}

/// Whether the key of the entry is of these sorts, and its value of that one.
#[cycle(fits)]
fn entry_fits(entry: &Entry, domain: &[Sort], codomain: &Sort) -> bool
    ensures { result ≡ (have_sorts (plain_entry entry.now).0 (plain_sorts domain.now) && has_sort (plain_entry entry.now).1 (plain_sort codomain.now)) }
{
    have_sorts(entry.key.as_slice(), domain) && has_sort(&entry.value, codomain)
}

/// Whether the values are of these sorts, in order.
#[cycle(fits)]
#[tactic(auto, using(crate::proofs::Fitting::unequal_lengths, crate::proofs::Fitting::sorts_step, crate::proofs::Fitting::sorts_end))]
fn have_sorts(values: &[Value], sorts: &[Sort]) -> bool
    ensures { result ≡ have_sorts (plain_values values.now) (plain_sorts sorts.now) }
{
    if values.len() != sorts.len() {
        return false;
    }
    for i in 0..values.len() {
        if !has_sort(&values[i], &sorts[i]) {
            return false;
        }
    }
    true
}
