//! How many tuples of values types have.
ghost use Rattle.y_tree.specs.Sorts.{size_of, tuples_of};
ghost use Rattle.y_tree.specs.Counting.{IsCount};
ghost use Rattle.y_tree.specs.Plain.{plain_sort, plain_sorts};

use crate::sorts::Sort;

// How many values the type has, where these are finitely many and below 2^128.
#[tactic(auto, unfolding(crate::specs::Plain::plain_sort))]
fn count_values(of: &Sort) -> Option<u128>
    ensures { IsCount result (size_of (plain_sort of.now)) }
{
    match of {
        Sort::Bool => Some(2),
        Sort::Bv(width) => 1u128.checked_shl(*width),
        _ => None,
    }
}

// How many tuples of values the types have, where these are finitely many and below 2^128.
#[tactic(auto, using(crate::proofs::Sizes::counts_start, crate::proofs::Sizes::counts_more, crate::proofs::Sizes::counts_none, crate::proofs::Sizes::counts_over, crate::proofs::Sizes::counts_end))]
pub(crate) fn count_tuples(of: &[Sort]) -> Option<u128>
    ensures { IsCount result (tuples_of (plain_sorts of.now)) }
{
    let mut count: u128 = 1;
    for i in 0..of.len() {
        let here = count_values(&of[i])?;
        count = count.checked_mul(here)?;
    }
    Some(count)
}
