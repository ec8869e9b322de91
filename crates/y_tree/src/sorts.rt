//! Types of terms.
ghost use Rattle.std.specs.Prelude.{◌≡◌};
ghost use Rattle.y_tree.specs.Sorts.{same_sort, same_sorts};
ghost use Rattle.y_tree.specs.Plain.{plain_sort, plain_sorts};

use sqlite_items::{Boxed, Items};

/// Types, in order.
pub type Sorts = Items<Sort>;

/// A type of terms as plain data, without handles. The types of terms are those that `is_sort` takes: widths are from 1
/// to 128, functions have from 1 to 16 arguments, and no functions stand in function types.
#[derive(Drop)]
pub enum Sort {
    /// The truth values.
    Bool,
    /// The real numbers.
    Real,
    /// The bit-vectors of a width.
    Bv(u32),
    /// The uninterpreted type of a number.
    Free(u64),
    /// The functions from arguments of these types to a result of that type.
    Fun(Sorts, Boxed<Sort>),
}

/// Whether two types are one.
#[cycle(same)]
#[tactic(auto, unfolding(crate::specs::Plain::plain_sort, crate::specs::Sorts::same_sort))]
pub fn same_sort(a: &Sort, b: &Sort) -> bool
    ensures { result ≡ same_sort (plain_sort a.now) (plain_sort b.now) }
{
    match (a, b) {
        (Sort::Bool, Sort::Bool) => true,
        (Sort::Real, Sort::Real) => true,
        (Sort::Bv(m), Sort::Bv(n)) => *m == *n,
        (Sort::Free(m), Sort::Free(n)) => *m == *n,
        (Sort::Fun(xs, x), Sort::Fun(ys, y)) => {
            same_sorts(xs.as_slice(), ys.as_slice()) && same_sort(x.get(), y.get())
        }
        _ => false,
    }
}

#[cycle(same)]
#[tactic(auto, using(crate::proofs::SortLists::unequal_lengths, crate::proofs::SortLists::sorts_step, crate::proofs::SortLists::sorts_end), unfolding(crate::specs::Plain::plain_sort, crate::specs::Sorts::same_sort))]
fn same_sorts(xs: &[Sort], ys: &[Sort]) -> bool
    ensures { result ≡ same_sorts (plain_sorts xs.now) (plain_sorts ys.now) }
{
    if xs.len() != ys.len() {
        return false;
    }
    for i in 0..xs.len() {
        if !same_sort(&xs[i], &ys[i]) {
            return false;
        }
    }
    true
}
