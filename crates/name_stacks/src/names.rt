//! Names with their meanings.
ghost use Rattle.std.specs.Prelude.{◌≡◌, ℕ, Bool, ◌<◌, ◌++◌, ◌∷◌, [], List, Option, Some, None, is_some, IsSome, OnOk, OnErr, IfSome, IfNone, true, slice_get, length, map, string_bytes};
ghost use Rattle.std.specs.Option.{option_copied, option_map, option_map_or};
ghost use Rattle.std.specs.HashMap.{get_by_text};
ghost use Rattle.std.specs.List.{filter};
ghost use Rattle.name_stacks.specs.Names.{newest, without_newest, oldest_name, IsNewest};
ghost use Rattle.name_stacks.specs.Heads.{shown, passing, AreHeads, AreRaised, PutsHead};

use crate::heads::{add_head, drop_head, set_head};
use std::alloc::{AllocError, Global};
use std::collections::HashMap;
use std::marker::Model;

/// A test of handles, for `Names::retain`.
pub trait Keeps<H> {
    /// Whether a handle passes.
    ghost passes: { Self → H → Bool };

    /// Whether a handle passes.
    fn keeps(&self, of: H) -> bool
        ensures { result ≡ passes self.now of };
}

/// A name with one of its meanings.
#[derive(Drop)]
struct Pair<H: Copy> {
    name: String,
    of: H,
}

/// Names with their meanings, from the oldest to the newest.
#[derive(Drop)]
pub struct Names<H: Copy> {
    alloc: Global,
    pairs: Vec<Pair<H>>,
    /// The newest meaning of each name.
    heads: HashMap<String, H>,
    ghost newest_at_head: { AreHeads heads (shown pairs.items) },
}

impl<H: Copy> Model for Names<H> {
    ghost use Rattle.std.specs.Prelude.{List, ℕ, map, string_bytes};
    ghost use Rattle.name_stacks.specs.declared.names.Pair.{Pair};

    ghost Value = { List (List ℕ × H) };

    ghost view = { λ n. map (λ (p : Pair H). (string_bytes p.name, p.of)) n.pairs.items };
}

impl<H: Copy> Names<H> {
    /// No names. This takes no memory.
    pub fn new(alloc: Global) -> Names<H>
        ensures { result ≡ [] }
    {
        Names {
            alloc,
            pairs: Vec::new(alloc),
            heads: HashMap::new(alloc),
        }
    }

    /// How many meanings there are, in constant time.
    pub fn len(&self) -> usize
        ensures { result ≡ length self.now }
    {
        self.pairs.len()
    }

    /// The meaning at a place, counted from the oldest, in constant time. Past the end it is `None`.
    pub fn meaning(&self, place: usize) -> Option<H>
        ensures { result ≡ option_map (λ (p : List ℕ × H). p.1) (slice_get self.now place) }
    {
        let pair = self.pairs.get(place)?;
        Some(pair.of)
    }

    /// Gives a name a new meaning, which hides its older ones, or answers that memory was refused. In expected constant
    /// time beside two copies of the name, but for the moves when the memory grows.
    pub fn push(&mut self, name: &str, of: H) -> Result<(), AllocError>
        ensures ok { OnOk result (self.new ≡ self.old ++ (name.now, of) ∷ []) }
        ensures err { OnErr result (self.new ≡ self.old) }
    {
        let head = String::from_str(self.alloc, name)?;
        let name = String::from_str(self.alloc, name)?;
        self.pairs.reserve(1)?;
        add_head(&mut self.heads, head, of)?;
        self.pairs.push_reserved(Pair { name, of });
        Ok(())
    }

    /// The newest meaning of a name, in expected constant time.
    pub fn newest(&self, name: &str) -> Option<H>
        ensures { result ≡ newest name.now self.now }
    {
        self.heads.get(name).copied()
    }

    /// Takes the newest meaning of a name away, so that the older one is back, and answers whether there was one. This
    /// takes no memory, and time linear in the number of meanings.
    pub fn remove(&mut self, name: &str) -> bool
        ensures there { result ≡ is_some (newest name.now self.old) }
        ensures pairs { self.new ≡ without_newest name.now self.old }
    {
        if !take_newest(&mut self.pairs, name) {
            return false;
        }
        lower_head(&mut self.heads, &self.pairs, name);
        true
    }

    /// Takes away each meaning whose handle doesn't pass; the others stay in their order. This takes no memory, and time
    /// linear in the number of meanings.
    pub fn retain<T: Keeps<H>>(&mut self, test: &T)
        ensures { self.new ≡ filter (λ (p : List ℕ × H). T.passes test.now p.1) self.old }
    {
        raise(&mut self.heads, &self.pairs, test);
        drop_failing(&mut self.heads, &self.pairs, test);
        self.pairs.retain(|pair| test.keeps(pair.of));
    }
}

impl<H: Copy + PartialEq> Names<H> {
    /// The name of the oldest meaning that is this handle, in time linear in the number of meanings.
    pub fn name_of(&self, of: H) -> Option<&str>
        ensures { option_copied result ≡ oldest_name H.eq of self.now }
    {
        for pair in &self.pairs {
            if of == pair.of {
                return Some(pair.name.as_str());
            }
        }
        None
    }
}

/// The place of the newest meaning of a name, in time linear in the number of meanings.
fn last<H: Copy>(pairs: &[Pair<H>], name: &str) -> Option<usize>
    ensures found { IfSome result (λ i. IsNewest name.now (shown pairs.now) i) }
    ensures none { IfNone result (newest name.now (shown pairs.now) ≡ None) }
{
    let mut at = pairs.len();
    while at > 0 {
        at -= 1;
        if pairs[at].name.as_str() == name {
            return Some(at);
        }
    }
    None
}

/// Takes the newest meaning of a name away, and answers whether there was one.
fn take_newest<H: Copy>(pairs: &mut Vec<Pair<H>>, name: &str) -> bool
    ensures there { result ≡ is_some (newest name.now (shown pairs.old.items)) }
    ensures pairs { shown pairs.new.items ≡ without_newest name.now (shown pairs.old.items) }
{
    match last(pairs, name) {
        Some(at) => {
            let _ = pairs.remove(at);
            true
        }
        None => false,
    }
}

/// Gives a name, which has a head, its newest meaning, or takes the head away where it has none.
fn lower_head<H: Copy>(heads: &mut HashMap<String, H>, pairs: &[Pair<H>], name: &str)
    requires { IsSome (get_by_text heads.old name.now) }
    ensures { PutsHead heads.old heads.new name.now (newest name.now (shown pairs.now)) }
{
    match last(pairs, name) {
        Some(at) => set_head(heads, name, pairs[at].of),
        None => drop_head(heads, name),
    }
}

/// Gives each name the newest of its handles that pass, where one does.
fn raise<H: Copy, T: Keeps<H>>(heads: &mut HashMap<String, H>, pairs: &[Pair<H>], test: &T)
    requires { AreHeads heads.old (shown pairs.now) }
    ensures { AreRaised (T.passes test.now) heads.new (shown pairs.now) (shown pairs.now) }
{
    for pair in pairs {
        if test.keeps(pair.of) {
            set_head(heads, pair.name.as_str(), pair.of);
        }
    }
}

/// Whether a name has no handle that fails.
fn is_passing<H: Copy, T: Keeps<H>>(heads: &HashMap<String, H>, name: &str, test: &T) -> bool
    ensures { result ≡ option_map_or (T.passes test.now) (get_by_text heads.now name.now) true }
{
    match heads.get(name) {
        Some(of) => test.keeps(*of),
        None => true,
    }
}

/// Takes each name away whose handle fails.
fn drop_failing<H: Copy, T: Keeps<H>>(heads: &mut HashMap<String, H>, pairs: &[Pair<H>], test: &T)
    requires { AreRaised (T.passes test.now) heads.old (shown pairs.now) (shown pairs.now) }
    ensures { AreHeads heads.new (passing (T.passes test.now) (shown pairs.now)) }
{
    for pair in pairs {
        if !is_passing(heads, pair.name.as_str(), test) {
            drop_head(heads, pair.name.as_str());
        }
    }
}
