//! A table, with the fact that the chains of its terms' arguments end.
ghost use Rattle.std.specs.Prelude.{◌≡◌};
ghost use Rattle.term_orders.specs.Ending.{Ends, ends_once};

use term_table::Table;

/// A table whose terms have no endless chain of arguments.
#[derive(Drop)]
pub(crate) struct Grounded<'t> {
    pub(crate) table: &'t Table,
    ghost ends: { Ends table.now } by { ends_once table.now },
}

/// The table with that fact.
#[tactic(auto, using(crate::proofs::Chains::chains_end))]
pub(crate) fn with_ends<'t>(table: &'t Table) -> Grounded<'t>
    ensures { result.table.now ≡ table.now }
{
    table.is_table();
    Grounded { table }
}
