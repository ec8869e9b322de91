//! Lists of terms with their values.
ghost use Rattle.std.specs.Prelude.{◌≡◌, ◌++◌, ◌∷◌, [], true, length, OnOk, OnErr};
ghost use Rattle.y_tree.specs.Order.{is_formed};
ghost use Rattle.y_tree.specs.Plain.{plain_value};
ghost use Rattle.model_eval.specs.Models.{plain_item, plain_items};

use std::alloc::{AllocError, Global};
use std::marker::Model;
use term_table::Term;
use y_tree::Value;

/// A list of terms, each with a value. The keys of functions in it are in rising order.
#[derive(Drop)]
pub struct TermValues {
    pub(crate) items: Vec<(Term, Value)>,
}

impl Model for TermValues {
    ghost use Rattle.std.specs.Prelude.{List};
    ghost use Rattle.std.specs.Coded.{codes};
    ghost use Rattle.y_tree.specs.Values.{Value as Plain};
    ghost use Rattle.y_tree.specs.Codes.{coded_value};
    ghost use Rattle.term_shapes.specs.declared.handles.Term.{Term};
    ghost use Rattle.term_shapes.specs.contracts.handles.Term as term;
    ghost use Rattle.model_eval.specs.Models.{plain_items, AreFormed};

    ghost Value = { List (Term × Plain) };

    ghost coded = { Prim.hlevel (codes, coded_value, term.the_row.coded) };

    ghost view = { λ v. plain_items v.items.items };

    ghost invariant = { λ v. AreFormed (plain_items v.items.items) };
}

impl TermValues {
    /// The empty list. Takes no memory.
    pub fn new(alloc: Global) -> Self
        ensures { result ≡ [] }
    {
        TermValues {
            items: Vec::new(alloc),
        }
    }

    /// Adds a term with its value at the end. O(1) amortized.
    ///
    /// # Errors
    ///
    /// Where memory is refused. Then the list is as before.
    pub fn push(&mut self, item: (Term, Value)) -> Result<(), AllocError>
        requires { is_formed (plain_value item.1) ≡ true }
        ensures ok { OnOk result (self.new ≡ self.old ++ plain_item item ∷ []) }
        ensures err { OnErr result (self.new ≡ self.old) }
    {
        self.items.push(item)?;
        Ok(())
    }

    /// How many entries there are. O(1).
    pub fn len(&self) -> usize
        ensures { result ≡ length self.now }
    {
        self.items.len()
    }

    /// The entries in order. O(1).
    pub fn as_slice(&self) -> &[(Term, Value)]
        ensures { plain_items result.now ≡ self.now }
    {
        self.items.as_slice()
    }
}
