//! Functions by entries and a value elsewhere.
ghost use Rattle.std.specs.Prelude.{◌≡◌, true, length, IsTrue, IfOk, OnOk, OnErr};
ghost use Rattle.std.specs.List.Sorted.{IsBinarySearchResult, IsSearchInRange};
ghost use Rattle.y_tree.specs.Values.{function, empty, is_flat, are_flat, is_flat_function, has_key, call};
ghost use Rattle.y_tree.specs.Order.{order_keys, is_formed, put_in, HasSortsBy, KeepsSorts, KeepsFlat};
ghost use Rattle.y_tree.specs.Plain.{plain_value, plain_values, plain_entry, plain_entries, plain_function};
ghost use Rattle.y_tree.specs.declared.values.FunValue.{out-FunValue};

use crate::order::cmp_keys;
use crate::values::{Entry, FunValue, Value, Values};
use sqlite_items::Boxed;
use std::alloc::{AllocError, Global};
use std::cmp::Ordering;

impl FunValue {
    /// The function with that value at each key.
    ///
    /// Errors: want of memory.
    #[tactic(auto, using(crate::proofs::Put::empty_sorts, crate::proofs::Put::empty_flat), unfolding(crate::specs::Plain::plain_value, crate::specs::Order::is_rising))]
    pub fn new(alloc: Global, default_value: Value) -> Result<FunValue, AllocError>
        ensures value { IfOk result (λ f. plain_function f ≡ function empty (plain_value default_value)) }
        ensures formed { IfOk result (λ f. IsTrue (is_formed (plain_function f))) }
        ensures sorted { IfOk result (λ f. HasSortsBy (plain_value default_value) (plain_function f)) }
        ensures flat { IfOk result (λ f. is_flat (plain_value default_value) ≡ true → is_flat_function (plain_function f) ≡ true) }
    {
        Ok(FunValue {
            entries: Vec::new(alloc),
            default_value: Boxed::new(alloc, default_value)?,
        })
    }

    /// The function with these entries, and that value at each key without one. Its entries are in rising order where
    /// these are.
    ///
    /// Errors: want of memory.
    #[tactic(auto, unfolding(crate::specs::Plain::plain_value))]
    pub fn from_entries(
        alloc: Global,
        entries: Vec<Entry>,
        default_value: Value,
    ) -> Result<FunValue, AllocError>
        ensures { IfOk result (λ f. plain_function f ≡ function (plain_entries entries.items) (plain_value default_value)) }
    {
        Ok(FunValue {
            entries,
            default_value: Boxed::new(alloc, default_value)?,
        })
    }

    /// The entries, in rising order of their keys.
    pub fn entries(&self) -> &[Entry]
        ensures { result.now ≡ (out-FunValue self.now).entries.items }
    {
        self.entries.as_slice()
    }

    /// The value at each key without an entry.
    pub fn default_value(&self) -> &Value
        ensures { result.now ≡ (out-FunValue self.now).default_value }
    {
        self.default_value.get()
    }

    // The place of the key's entry, or that where it would stand.
    fn place(&self, key: &[Value]) -> Result<usize, usize>
        ensures within { IsSearchInRange result (length (out-FunValue self.now).entries.items) }
        ensures place { IsBinarySearchResult (λ e. order_keys (plain_entry e).0 (plain_values key.now))
            (out-FunValue self.now).entries.items result }
    {
        self.entries.binary_search_by(
            |e: &Entry| -> Ordering
                ensures { result ≡ order_keys (plain_entry e.entry.now).0 (plain_values key.entry.now) }
            { cmp_keys(e.key.as_slice(), key) },
        )
    }

    /// Makes the value the entry of the key, and leaves all else as it was.
    ///
    /// Errors: want of memory, and then the function is as it was. Cost: a binary search, and a move of the entries
    /// behind the key.
    #[tactic(auto, using(crate::proofs::Put::keeps_sorts, crate::proofs::Put::keeps_same, crate::proofs::Put::keeps_flat, crate::proofs::Put::same_flat))]
    pub fn set(&mut self, key: Values, value: Value) -> Result<(), AllocError>
        requires formed { IsTrue (is_formed (plain_function self.old)) }
        ensures ok { OnOk result (plain_function self.new ≡ put_in (plain_values key) (plain_value value) (plain_function self.old)) }
        ensures err { OnErr result (plain_function self.new ≡ plain_function self.old) }
        ensures formed { IsTrue (is_formed (plain_function self.new)) }
        ensures sorted { KeepsSorts (plain_values key) (plain_value value) (plain_function self.old) (plain_function self.new) }
        ensures flat { KeepsFlat (plain_values key) (plain_value value) (plain_function self.old) (plain_function self.new) }
    {
        match self.place(key.as_slice()) {
            Ok(at) => {
                self.entries[at] = Entry { key, value };
            }
            Err(at) => {
                self.entries.insert(at, Entry { key, value })?;
            }
        }
        Ok(())
    }

    /// The value at a key without functions in it.
    ///
    /// Cost: a binary search.
    pub fn value_at(&self, key: &[Value]) -> &Value
        requires formed { IsTrue (is_formed (plain_function self.now)) }
        requires flat { IsTrue (are_flat (plain_values key.now)) }
        ensures { plain_value result.now ≡ call (plain_function self.now) (plain_values key.now) }
    {
        match self.place(key) {
            Ok(at) => &self.entries[at].value,
            Err(_) => self.default_value(),
        }
    }

    // Whether the function has an entry with the key.
    pub(crate) fn has_key(&self, key: &[Value]) -> bool
        requires formed { IsTrue (is_formed (plain_function self.now)) }
        requires flat { IsTrue (are_flat (plain_values key.now)) }
        ensures { result ≡ has_key (plain_values key.now) (plain_entries (out-FunValue self.now).entries.items) }
    {
        match self.place(key) {
            Ok(_) => true,
            Err(_) => false,
        }
    }
}
