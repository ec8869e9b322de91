//! Marks spread until the worklist is empty.
//!
//! While they spread, each mark is one that a root reaches, and whatever a marked handle needs is marked, or else the
//! handle is still on the worklist. So with an empty worklist the marks are closed. A handle goes on the worklist when it
//! gets its mark and never comes back, so the slots that are unmarked or on the worklist get fewer in each turn.
ghost use Rattle.std.specs.Prelude.{◌≡◌, IfSome, IfNone};
ghost use Rattle.stamped_slots.specs.Regular.{NoneWaits};
ghost use Rattle.term_collect.specs.Marking.{AllWait, Marks, Takes, Spreads, IsLiveHeld};
ghost use Rattle.term_collect.specs.Reach.{IsNamed};

use crate::walking::mark_needs;
use term_table::{Marked, Table};

/// Marks the permanent types and terms, and whatever is referred to.
pub fn mark_held(table: &mut Table)
    ensures { Marks table.old table.new (IsLiveHeld table.old) }
{
    table.is_table();
    table.mark_counted();
}

/// Marks what a name means, where names are to be kept.
pub fn mark_named(table: &mut Table, keep_named: bool)
    ensures { Marks table.old table.new (IsNamed table.old keep_named) }
{
    if !keep_named {
        return;
    }
    table.is_table();
    table.mark_named();
}

/// Takes a handle off the worklist; `None` where it is empty.
#[tactic(auto, using(crate::proofs::Handles::takes_up))]
fn next_handle(table: &mut Table) -> Option<Marked>
    ensures some { IfSome result (λ g. Takes table.old table.new g) }
    ensures none { IfNone result (NoneWaits table.old.terms × NoneWaits table.old.types) }
    ensures same { IfNone result (table.new ≡ table.old) }
{
    table.is_table();
    table.next_marked()
}

/// Marks all that is reached from what is marked.
#[tactic(auto, using(crate::proofs::Worklist::spreading_ends, crate::proofs::Worklist::spreading_starts))]
pub fn spread(table: &mut Table)
    requires { AllWait table.old }
    ensures { Spreads table.old table.new }
{
    while let Some(next) = next_handle(table) {
        mark_needs(table, next);
    }
}
