//! The environment.
ghost use Rattle.std.specs.Prelude.{◌≡◌, IfOk};
ghost use Rattle.std.specs.Option.{option_copied};
ghost use Rattle.term_table.specs.World.{IsTable};
ghost use Rattle.yices_api.specs.State.{State, context_in, IsEnvironment};
ghost use Rattle.yices_api.specs.Runs.{IsEmpty, IsWorld};

use crate::handles::ContextId;
use crate::held::Held;
use context_stack::Context;
use slab::Slab;
use std::alloc::{AllocError, Global};
use std::marker::Model;
use term_table::Table;

/// The table of types and terms, and the contexts.
#[derive(Drop)]
pub struct Env {
    pub(crate) alloc: Global,
    pub(crate) table: Table,
    pub(crate) contexts: Slab<Held>,
    pub(crate) made: u64,
}

impl Model for Env {
    ghost use Rattle.yices_api.specs.State.{State, IsEnvironment};

    ghost Value = { State };

    ghost view = { λ e. record { table = e.table; contexts = e.contexts.slots; made = e.made } };

    ghost invariant = { λ e. IsEnvironment (record { table = e.table; contexts = e.contexts.slots; made = e.made }) };
}

impl Env {
    /// A new table, and no context.
    ///
    /// # Errors
    ///
    /// Where memory is refused.
    pub fn new(alloc: Global) -> Result<Env, AllocError>
        ensures { IfOk result (λ env. IsEmpty env) }
    {
        let table = Table::new(alloc)?;
        Ok(Env {
            alloc,
            table,
            contexts: Slab::new(alloc),
            made: 0,
        })
    }

    /// The table of types and terms.
    pub fn table(&self) -> &Table
        ensures { result.now ≡ self.now.table }
    {
        &self.table
    }

    /// The context, where its handle is live.
    pub fn context(&self, id: ContextId) -> Option<&Context>
        ensures { option_copied result ≡ context_in self.now.contexts id }
    {
        match self.contexts.get(id.key) {
            Some(held) => held.under(id.stamp),
            None => None,
        }
    }

    /// What always holds: the table is one, and what each live context holds is formulas of it.
    pub fn is_world(&self)
        ensures { IsWorld self.now }
    {
        self.table.is_table();
    }
}
