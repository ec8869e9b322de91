//! The state of a search over clauses, with two watched literals a clause.
#![tactic(auto)]

ghost use Rattle.std.specs.Prelude.{◌≡◌, ◌≢◌, ◌<◌, ◌≤◌, ◌+◌, ◌++◌, ◌∷◌, ◌⊎◌, ◌↔◌, [], List, ℕ, Bool, Option, Some, None, true, false, length, slice_get, slice_set, swap_remove, OnOk, OnErr, IfOk, IsTrue, IfSome, IfNone, slice_index_or, min};
ghost use Rattle.std.specs.Bool.{OnTrue, OnFalse};
ghost use Rattle.clause_logic.specs.Clauses.{opposite};
ghost use Rattle.clause_logic.specs.Trails.{Prefix};
ghost use Rattle.clause_trail.specs.Words.{code_of, Stands, True, False, Open, Has, AllFalse, AllFalseBut, Propagated};
ghost use Rattle.clause_trail.specs.View.{lists_of, Base, Now, Sound, Watches, assigned};
ghost use Rattle.clause_trail.specs.Steps.{Studied, Ways, row_of, moved, Clashes, Turn, Keeps, Goes, Grown};
ghost use Rattle.clause_trail.specs.Changes.{Popped, Shrunk, Roomier, row_pushed, AllListed, SameTrail, SameBut, Prepared, Formed, Wide, Asserts, Asserted, Adds, Closed, Backed};
ghost use Rattle.clause_logic.specs.declared.Lit.{Lit};
ghost use Rattle.clause_trail.specs.declared.Pair.{Pair};
ghost use Rattle.clause_trail.specs.declared.State.{State};

pub mod analysis;
pub mod conflicts;
pub mod levels;
pub mod shortening;

use clause_choice::choice::Choice;
use clause_choice::relevance::Relevance;
use clause_logic::lists::Clause;
use clause_logic::{Lit, same};
use std::alloc::{AllocError, Global};
use std::marker::Model;

/// The two literals that a clause watches.
#[derive(Clone, Copy)]
pub struct Pair {
    pub first: Lit,
    pub second: Lit,
}

impl Pair {
    /// The other literal, where one of the two is this.
    fn partner(self, falsified: Lit) -> Option<Lit>
        ensures some { IfSome result (λ other. Ways self falsified other) }
        ensures none { IfNone result (Watches self falsified → ⊥) }
    {
        if same(self.first, falsified) {
            return Some(self.second);
        }
        if same(self.second, falsified) {
            return Some(self.first);
        }
        None
    }
}

/// How a literal stands under a partial assignment.
#[derive(Clone, Copy)]
pub enum Standing {
    True,
    False,
    Open,
}

/// What is done with a clause whose watched literal became false.
#[derive(Clone, Copy)]
pub enum Step {
    Keep,
    Imply(Lit),
    Move { other: Lit, to: Lit },
    Clash,
}

/// Where a turn along a row goes on.
#[derive(Clone, Copy)]
pub enum Advance {
    Next,
    Same,
    Clash(usize),
}

/// What became of a clause.
#[derive(Clone, Copy)]
pub enum Added {
    Kept,
    False,
}

/// The clauses that watch one literal.
#[derive(Drop)]
pub struct Row {
    clauses: Vec<usize>,
}

impl Model for Row {
    ghost use Rattle.std.specs.Prelude.{List, ℕ};

    ghost Value = { List ℕ };

    ghost view = { λ r. r.clauses.items };
}

impl Row {
    pub fn new(alloc: Global) -> Row
        ensures { result ≡ [] }
    {
        Row {
            clauses: Vec::new(alloc),
        }
    }

    pub fn len(&self) -> usize
        ensures { result ≡ length self.now }
    {
        self.clauses.len()
    }

    pub fn at(&self, index: usize) -> usize
        requires { index < length self.now }
        ensures { slice_get self.now index ≡ Some result }
    {
        self.clauses[index]
    }

    pub fn push(&mut self, clause: usize) -> Result<(), AllocError>
        ensures ok { OnOk result (self.new ≡ self.old ++ clause ∷ []) }
        ensures err { OnErr result (self.new ≡ self.old) }
    {
        self.clauses.push(clause)?;
        Ok(())
    }

    pub fn swap_remove(&mut self, index: usize)
        requires { index < length self.old }
        ensures items { (d : ℕ) → self.new ≡ swap_remove self.old index d }
        ensures len { length self.new + 1 ≡ length self.old }
    {
        self.clauses.swap_remove(index);
    }
}

/// The number of a literal's row.
pub fn code(lit: Lit, vars: usize) -> usize
    requires known { lit.var < vars }
    requires fits { vars + vars ≤ 18446744073709551615 }
    ensures { result ≡ code_of lit }
{
    if lit.positive {
        lit.var + lit.var + 1
    } else {
        lit.var + lit.var
    }
}

#[derive(Drop)]
pub struct State {
    pub values: Vec<Option<bool>>,
    pub reasons: Vec<Option<usize>>,
    pub places: Vec<usize>,
    pub order: Vec<Lit>,
    pub starts: Vec<usize>,
    pub done: usize,
    pub clauses: Vec<Clause>,
    pub pairs: Vec<Pair>,
    pub watches: Vec<Row>,
    pub choice: Choice,
    pub relevance: Relevance,
}

impl State {
    /// How a literal stands.
    pub fn standing(&self, lit: Lit) -> Standing
        requires { lit.var < length self.now.values.items }
        ensures { Stands self.now.values.items lit result }
    {
        match self.values[lit.var] {
            None => Standing::Open,
            Some(value) => {
                if value == lit.positive {
                    Standing::True
                } else {
                    Standing::False
                }
            }
        }
    }

    /// Makes a literal true.
    fn enqueue(&mut self, lit: Lit, reason: Option<usize>) -> Result<(), AllocError>
        requires known { lit.var < length self.old.values.items }
        requires reasons { length self.old.values.items ≤ length self.old.reasons.items }
        requires places { length self.old.values.items ≤ length self.old.places.items }
        ensures ok { OnOk result (lists_of self.new ≡ assigned (lists_of self.old) lit reason) }
        ensures err { OnErr result (lists_of self.new ≡ lists_of self.old) }
    {
        let place = self.order.len();
        self.order.push(lit)?;
        self.places[lit.var] = place;
        self.values[lit.var] = Some(lit.positive);
        self.reasons[lit.var] = reason;
        Ok(())
    }

    /// Whether a literal is no use as a replacement.
    fn is_passed(&self, lit: Lit, other: Lit) -> bool
        requires { lit.var < length self.now.values.items }
        ensures yes { OnTrue result ((lit ≡ other) ⊎ False self.now.values.items lit) }
        ensures no { OnFalse result ((lit ≡ other → ⊥) × (False self.now.values.items lit → ⊥)) }
    {
        match self.values[lit.var] {
            None => same(lit, other),
            Some(value) => value != lit.positive || same(lit, other),
        }
    }

    /// A literal other than `other` that is not false.
    fn replacement(&self, lits: &[Lit], other: Lit) -> Option<Lit>
        requires { (l : Lit) → Has lits.now l → l.var < length self.now.values.items }
        ensures some { IfSome result (λ to. Has lits.now to × (to ≡ other → ⊥) × (False self.now.values.items to → ⊥)) }
        ensures none { IfNone result (AllFalseBut self.now.values.items lits.now other) }
    {
        for i in 0..lits.len() {
            let lit = lits[i];
            if !self.is_passed(lit, other) {
                return Some(lit);
            }
        }
        None
    }

    /// What a clause watches.
    fn pair_at(&self, c: usize) -> Pair
        requires { c < length self.now.pairs.items }
        ensures { slice_get self.now.pairs.items c ≡ Some result }
    {
        self.pairs[c]
    }

    /// The literals of a clause.
    pub fn lits_at(&self, c: usize) -> &[Lit]
        requires { c < length self.now.clauses.items }
        ensures { slice_get self.now.clauses.items c ≡ Some result.now }
    {
        let clause = &self.clauses[c];
        clause.as_slice()
    }

    /// The clause that made the literal at a place true.
    pub fn reason_at(&self, place: usize) -> Option<usize>
        requires place { place < length self.now.order.items }
        requires known { (l : Lit) → slice_get self.now.order.items place ≡ Some l → l.var < length self.now.reasons.items }
        ensures { (l : Lit) → slice_get self.now.order.items place ≡ Some l → slice_get self.now.reasons.items l.var ≡ Some result }
    {
        let lit = self.lit_at(place);
        self.reasons[lit.var]
    }

    /// The literal at a place of the trail.
    pub fn lit_at(&self, place: usize) -> Lit
        requires { place < length self.now.order.items }
        ensures { slice_get self.now.order.items place ≡ Some result }
    {
        self.order[place]
    }

    /// What is to be done with a clause in the row of a literal that is false.
    fn study(&self, c: usize, falsified: Lit) -> Step
        requires base { Base (lists_of self.now) }
        requires now { Now (lists_of self.now) self.now.done }
        ensures { Studied (lists_of self.now) falsified c result }
    {
        if c >= self.clauses.len() {
            return Step::Keep;
        }
        let pair = self.pair_at(c);
        let other = match pair.partner(falsified) {
            None => return Step::Keep,
            Some(other) => other,
        };
        if same(other, falsified) {
            return Step::Keep;
        }
        let lits = self.lits_at(c);
        match self.standing(other) {
            Standing::True => Step::Keep,
            Standing::Open => match self.replacement(lits, other) {
                Some(to) => Step::Move { other, to },
                None => Step::Imply(other),
            },
            Standing::False => match self.replacement(lits, other) {
                Some(to) => Step::Move { other, to },
                None => Step::Clash,
            },
        }
    }

    /// Lets a clause watch another literal.
    #[tactic(auto, using(crate::proofs::Rows::code_below))]
    fn shift(
        &mut self,
        c: usize,
        at: usize,
        falsified: Lit,
        other: Lit,
        to: Lit,
    ) -> Result<(), AllocError>
        requires pair { c < length self.old.pairs.items }
        requires known { to.var < length self.old.values.items }
        requires known_too { falsified.var < length self.old.values.items }
        requires rows { length self.old.values.items + length self.old.values.items ≤ length self.old.watches.items }
        requires at { at < length (row_of self.old.watches.items falsified) }
        requires apart { code_of to ≡ code_of falsified → ⊥ }
        ensures ok { OnOk result (lists_of self.new ≡ moved (lists_of self.old) c at falsified other to) }
        ensures err { OnErr result (lists_of self.new ≡ lists_of self.old) }
    {
        let vars = self.values.len();
        let rows = self.watches.len();
        let row = &mut self.watches[code(to, vars)];
        row.push(c)?;
        let left = &mut self.watches[code(falsified, vars)];
        left.swap_remove(at);
        self.pairs[c] = Pair {
            first: other,
            second: to,
        };
        Ok(())
    }

    /// The clause at a place of a literal's row.
    #[tactic(auto, using(crate::proofs::Rows::code_below))]
    fn row_at(&self, falsified: Lit, at: usize) -> usize
        requires known { falsified.var < length self.now.values.items }
        requires rows { length self.now.values.items + length self.now.values.items ≤ length self.now.watches.items }
        requires at { at < length (row_of self.now.watches.items falsified) }
        ensures { slice_get (row_of self.now.watches.items falsified) at ≡ Some result }
    {
        let vars = self.values.len();
        let rows = self.watches.len();
        let row = &self.watches[code(falsified, vars)];
        row.at(at)
    }

    /// How long a literal's row is.
    #[tactic(auto, using(crate::proofs::Rows::code_below))]
    fn row_len(&self, falsified: Lit) -> usize
        requires known { falsified.var < length self.now.values.items }
        requires rows { length self.now.values.items + length self.now.values.items ≤ length self.now.watches.items }
        ensures { result ≡ length (row_of self.now.watches.items falsified) }
    {
        let vars = self.values.len();
        let rows = self.watches.len();
        let row = &self.watches[code(falsified, vars)];
        row.len()
    }

    /// One step along the row of a literal that became false.
    fn advance(&mut self, at: usize, falsified: Lit) -> Result<Advance, AllocError>
        requires turn { Turn (lists_of self.old) falsified at }
        requires at { at < length (row_of self.old.watches.items falsified) }
        ensures keeps { Keeps (lists_of self.old) (lists_of self.new) }
        ensures goes { IfOk result (λ a. Goes (lists_of self.old) (lists_of self.new) falsified at a) }
    {
        let c = self.row_at(falsified, at);
        match self.study(c, falsified) {
            Step::Keep => Ok(Advance::Next),
            Step::Imply(other) => {
                self.enqueue(other, Some(c))?;
                Ok(Advance::Next)
            }
            Step::Move { other, to } => {
                self.shift(c, at, falsified, other, to)?;
                Ok(Advance::Same)
            }
            Step::Clash => Ok(Advance::Clash(c)),
        }
    }

    /// Whether a literal stands on the trail before a place.
    pub fn is_before(&self, lit: Lit, place: usize) -> bool
        requires sound { Sound (lists_of self.now) }
        requires known { lit.var < length self.now.values.items }
        ensures yes { OnTrue result (Prefix self.now.order.items place lit) }
        ensures no { OnFalse result (Prefix self.now.order.items place lit → ⊥) }
    {
        match self.standing(lit) {
            Standing::True => self.places[lit.var] < place,
            Standing::False => false,
            Standing::Open => false,
        }
    }

    /// Looks at each clause that watches the opposite of the next literal on the trail.
    fn visit(&mut self, falsified: Lit) -> Result<Option<usize>, AllocError>
        requires sound { Sound (lists_of self.old) }
        requires here { slice_get self.old.order.items self.old.done ≡ Some (opposite falsified) }
        ensures keeps { Keeps (lists_of self.old) (lists_of self.new) }
        ensures none { IfOk result (λ o. IfNone o (Now (lists_of self.new) (self.new.done + 1))) }
        ensures clash { IfOk result (λ o. IfSome o (λ c. Clashes self.new.values.items self.new.clauses.items c)) }
    {
        let mut at = 0;
        while at < self.row_len(falsified) {
            match self.advance(at, falsified)? {
                Advance::Next => at += 1,
                Advance::Same => {}
                Advance::Clash(c) => return Ok(Some(c)),
            }
        }
        Ok(None)
    }

    /// Draws all conclusions that unit clauses give: none is left, or a clause is false.
    pub fn propagate(&mut self) -> Result<Option<usize>, AllocError>
        requires { Sound (lists_of self.old) }
        ensures sound { Sound (lists_of self.new) }
        ensures grown { Grown (lists_of self.old) (lists_of self.new) }
        ensures none { IfOk result (λ o. IfNone o (Propagated self.new.values.items self.new.clauses.items)) }
        ensures done { IfOk result (λ o. IfNone o (self.new.done ≡ length self.new.order.items)) }
        ensures clash { IfOk result (λ o. IfSome o (λ c. Clashes self.new.values.items self.new.clauses.items c)) }
    {
        while self.done < self.order.len() {
            let lit = self.order[self.done];
            let falsified = Lit {
                var: lit.var,
                positive: !lit.positive,
            };
            if let Some(c) = self.visit(falsified)? {
                return Ok(Some(c));
            }
            self.done += 1;
        }
        Ok(None)
    }

    /// A state with no variables and no clauses.
    pub fn new(alloc: Global) -> State
        ensures sound { Sound (lists_of result) }
        ensures empty { (result.values.items ≡ []) × (result.order.items ≡ []) × (result.starts.items ≡ []) × (result.clauses.items ≡ []) }
    {
        State {
            values: Vec::new(alloc),
            reasons: Vec::new(alloc),
            places: Vec::new(alloc),
            order: Vec::new(alloc),
            starts: Vec::new(alloc),
            done: 0,
            clauses: Vec::new(alloc),
            pairs: Vec::new(alloc),
            watches: Vec::new(alloc),
            choice: Choice::new(alloc),
            relevance: Relevance::new(alloc),
        }
    }

    /// Room for one variable more.
    fn make_room(&mut self, alloc: Global) -> Result<(), AllocError>
        requires { Sound (lists_of self.old) }
        ensures roomier { Roomier (lists_of self.old) (lists_of self.new) }
        ensures ok { OnOk result ((length self.old.reasons.items + 1 ≤ length self.new.reasons.items) × (length self.old.places.items + 1 ≤ length self.new.places.items) × (length self.old.watches.items + 2 ≤ length self.new.watches.items)) }
    {
        self.choice.add_var()?;
        self.reasons.push(None)?;
        self.places.push(0)?;
        self.watches.push(Row::new(alloc))?;
        self.watches.push(Row::new(alloc))?;
        Ok(())
    }

    /// Makes a variable, which has no value.
    pub fn new_var(&mut self, alloc: Global) -> Result<usize, AllocError>
        requires { Sound (lists_of self.old) }
        ensures sound { Sound (lists_of self.new) }
        ensures value { IfOk result (λ v. v ≡ length self.old.values.items) }
        ensures values { OnOk result (self.new.values.items ≡ self.old.values.items ++ None ∷ []) }
        ensures err { OnErr result (self.new.values.items ≡ self.old.values.items) }
        ensures clauses { self.new.clauses.items ≡ self.old.clauses.items }
        ensures order { self.new.order.items ≡ self.old.order.items }
        ensures starts { self.new.starts.items ≡ self.old.starts.items }
    {
        self.make_room(alloc)?;
        let var = self.values.len();
        self.values.push(None)?;
        Ok(var)
    }

    /// Begins a level.
    pub fn open_level(&mut self) -> Result<(), AllocError>
        requires sound { Sound (lists_of self.old) }
        requires all { self.old.done ≡ length self.old.order.items }
        ensures sound { Sound (lists_of self.new) }
        ensures ok { OnOk result (lists_of self.new ≡ record (lists_of self.old) { starts = self.old.starts.items ++ length self.old.order.items ∷ [] }) }
        ensures err { OnErr result (lists_of self.new ≡ lists_of self.old) }
    {
        let start = self.order.len();
        self.starts.push(start)?;
        Ok(())
    }

    /// Makes a literal true that begins its level.
    pub fn decide(&mut self, lit: Lit) -> Result<(), AllocError>
        requires sound { Sound (lists_of self.old) }
        requires free { Open self.old.values.items lit }
        requires level { (n : ℕ) × (slice_get self.old.starts.items n ≡ Some (length self.old.order.items)) }
        ensures sound { Sound (lists_of self.new) }
        ensures ok { OnOk result (lists_of self.new ≡ assigned (lists_of self.old) lit None) }
        ensures err { OnErr result (lists_of self.new ≡ lists_of self.old) }
    {
        self.enqueue(lit, None)?;
        Ok(())
    }

    /// Takes the last literal off the trail.
    fn unassign(&mut self)
        requires base { Base (lists_of self.old) }
        requires above { self.old.done < length self.old.order.items }
        ensures { Popped (lists_of self.old) (lists_of self.new) }
    {
        if let Some(lit) = self.order.pop() {
            self.values[lit.var] = None;
            self.choice.release(lit.var, lit.positive);
        }
    }

    /// Takes the last level away.
    #[tactic(auto, using(crate::proofs::Lowering::lowering_begins, crate::proofs::Lowering::lowering_step, crate::proofs::Lowering::lowering_ends))]
    pub fn pop_level(&mut self)
        requires sound { Sound (lists_of self.old) }
        requires level { 0 < length self.old.starts.items }
        ensures sound { Sound (lists_of self.new) }
        ensures shrunk { Shrunk (lists_of self.old) (lists_of self.new) }
        ensures starts { self.old.starts.items ≡ self.new.starts.items ++ length self.new.order.items ∷ [] }
        ensures done { self.new.done ≡ length self.new.order.items }
    {
        let last = self.starts.len() - 1;
        let start = self.starts[last];
        self.done = start;
        while self.order.len() > start {
            self.unassign();
        }
        self.starts.pop();
    }

    /// Lists a clause in the row of a literal.
    #[tactic(auto, using(crate::proofs::Rows::code_below, crate::proofs::Attaching::room_row))]
    fn list(&mut self, lit: Lit, c: usize) -> Result<(), AllocError>
        requires known { lit.var < length self.old.values.items }
        requires rows { length self.old.values.items + length self.old.values.items ≤ length self.old.watches.items }
        ensures ok { OnOk result (lists_of self.new ≡ record (lists_of self.old) { watches = row_pushed self.old.watches.items lit c }) }
        ensures err { OnErr result (lists_of self.new ≡ lists_of self.old) }
    {
        let vars = self.values.len();
        let rows = self.watches.len();
        let row = &mut self.watches[code(lit, vars)];
        row.push(c)?;
        Ok(())
    }

    /// Lists the next clause where it watches.
    fn list_both(&mut self, pair: Pair, c: usize) -> Result<(), AllocError>
        requires known { (pair.first.var < length self.old.values.items) × (pair.second.var < length self.old.values.items) }
        requires rows { length self.old.values.items + length self.old.values.items ≤ length self.old.watches.items }
        ensures roomier { Roomier (lists_of self.old) (lists_of self.new) }
        ensures ok { OnOk result ((pair.first ≡ pair.second → ⊥) → AllListed self.new.watches.items pair c) }
    {
        if same(pair.first, pair.second) {
            return Ok(());
        }
        self.list(pair.first, c)?;
        self.list(pair.second, c)?;
        Ok(())
    }

    /// Makes the next clause's pair, before the clause is there.
    fn prepare(&mut self, pair: Pair) -> Result<usize, AllocError>
        requires sound { Sound (lists_of self.old) }
        requires known { (pair.first.var < length self.old.values.items) × (pair.second.var < length self.old.values.items) }
        ensures sound { Sound (lists_of self.new) }
        ensures same { SameBut (lists_of self.old) (lists_of self.new) }
        ensures ok { IfOk result (λ c. Prepared (lists_of self.new) c pair) }
    {
        let c = self.clauses.len();
        self.list_both(pair, c)?;
        self.pairs.truncate(c);
        self.pairs.push(pair)?;
        Ok(c)
    }

    /// Keeps a clause of which two literals are not false.
    pub fn attach(&mut self, clause: Clause, pair: Pair) -> Result<(), AllocError>
        requires sound { Sound (lists_of self.old) }
        requires wide { Wide (lists_of self.old) clause pair }
        ensures sound { Sound (lists_of self.new) }
        ensures same { SameTrail (lists_of self.old) (lists_of self.new) }
        ensures ok { OnOk result (self.new.clauses.items ≡ self.old.clauses.items ++ clause ∷ []) }
        ensures err { OnErr result (self.new.clauses.items ≡ self.old.clauses.items) }
    {
        let c = self.prepare(pair)?;
        self.clauses.push(clause)?;
        Ok(())
    }

    /// Keeps a clause that makes its first watched literal true: the others are false, and the
    /// second watched literal became so after each level's start.
    pub fn learn(&mut self, clause: Clause, pair: Pair) -> Result<(), AllocError>
        requires sound { Sound (lists_of self.old) }
        requires asserts { Asserts (lists_of self.old) clause pair }
        ensures sound { Sound (lists_of self.new) }
        ensures ok { OnOk result (Asserted (lists_of self.old) (lists_of self.new) clause pair.first) }
        ensures err { OnErr result (SameBut (lists_of self.old) (lists_of self.new)) }
    {
        let c = self.prepare(pair)?;
        self.clauses.push(clause)?;
        match self.enqueue(pair.first, Some(c)) {
            Ok(()) => Ok(()),
            Err(error) => {
                self.clauses.pop();
                Err(error)
            }
        }
    }

    /// Whether a variable has no value.
    pub fn is_open(&self, var: usize) -> bool
        requires { var < length self.now.values.items }
        ensures yes { OnTrue result (slice_get self.now.values.items var ≡ Some None) }
        ensures no { OnFalse result ((b : Bool) × (slice_get self.now.values.items var ≡ Some (Some b))) }
    {
        match self.values[var] {
            None => true,
            Some(_value) => false,
        }
    }

    /// Whether a literal is false.
    pub fn is_false(&self, lit: Lit) -> bool
        requires { lit.var < length self.now.values.items }
        ensures yes { OnTrue result (False self.now.values.items lit) }
        ensures no { OnFalse result (False self.now.values.items lit → ⊥) }
    {
        match self.values[lit.var] {
            None => false,
            Some(value) => value != lit.positive,
        }
    }

    /// A literal that is not false.
    fn seek(&self, lits: &[Lit]) -> Option<Lit>
        requires { (l : Lit) → Has lits.now l → l.var < length self.now.values.items }
        ensures some { IfSome result (λ l. Has lits.now l × (False self.now.values.items l → ⊥)) }
        ensures none { IfNone result (AllFalse self.now.values.items lits.now) }
    {
        for i in 0..lits.len() {
            let lit = lits[i];
            if !self.is_false(lit) {
                return Some(lit);
            }
        }
        None
    }

    /// Keeps a clause that is true at the root.
    fn attach_true(&mut self, clause: Clause, lit: Lit) -> Result<(), AllocError>
        requires sound { Sound (lists_of self.old) }
        requires root { self.old.starts.items ≡ [] }
        requires known { (l : Lit) → Has clause l → l.var < length self.old.values.items }
        requires has { Has clause lit }
        requires holds { True self.old.values.items lit }
        ensures sound { Sound (lists_of self.new) }
        ensures same { SameTrail (lists_of self.old) (lists_of self.new) }
        ensures ok { OnOk result (self.new.clauses.items ≡ self.old.clauses.items ++ clause ∷ []) }
        ensures err { OnErr result (self.new.clauses.items ≡ self.old.clauses.items) }
    {
        let pair = Pair {
            first: lit,
            second: lit,
        };
        let c = self.prepare(pair)?;
        self.clauses.push(clause)?;
        Ok(())
    }

    /// Adds a clause at the root, unless it is false there.
    pub fn add_clause(&mut self, clause: Clause) -> Result<Added, AllocError>
        requires sound { Sound (lists_of self.old) }
        requires root { self.old.starts.items ≡ [] }
        requires known { (l : Lit) → Has clause l → l.var < length self.old.values.items }
        ensures sound { Sound (lists_of self.new) }
        ensures starts { self.new.starts.items ≡ self.old.starts.items }
        ensures vars { length self.new.values.items ≡ length self.old.values.items }
        ensures added { IfOk result (λ a. Adds (lists_of self.old) (lists_of self.new) clause a) }
        ensures err { OnErr result (SameBut (lists_of self.old) (lists_of self.new)) }
    {
        let first = match self.seek(clause.as_slice()) {
            None => return Ok(Added::False),
            Some(first) => first,
        };
        match self.replacement(clause.as_slice(), first) {
            Some(second) => {
                self.attach(clause, Pair { first, second })?;
                Ok(Added::Kept)
            }
            None => match self.standing(first) {
                Standing::Open => {
                    self.learn(
                        clause,
                        Pair {
                            first,
                            second: first,
                        },
                    )?;
                    Ok(Added::Kept)
                }
                Standing::True => {
                    self.attach_true(clause, first)?;
                    Ok(Added::Kept)
                }
                Standing::False => Ok(Added::False),
            },
        }
    }

    /// Begins a level with a literal.
    pub fn branch(&mut self, lit: Lit) -> Result<(), AllocError>
        requires sound { Sound (lists_of self.old) }
        requires all { self.old.done ≡ length self.old.order.items }
        requires free { Open self.old.values.items lit }
        ensures sound { Sound (lists_of self.new) }
        ensures ok { OnOk result (lists_of self.new ≡ assigned (record (lists_of self.old) { starts = self.old.starts.items ++ length self.old.order.items ∷ [] }) lit None) }
    {
        self.open_level()?;
        self.decide(lit)?;
        Ok(())
    }

    /// Takes all levels away but so many.
    pub fn backtrack(&mut self, level: usize)
        requires sound { Sound (lists_of self.old) }
        ensures backed { Backed (lists_of self.old) (lists_of self.new) level }
        ensures level { length self.new.starts.items ≡ min level (length self.old.starts.items) }
    {
        while self.starts.len() > level {
            self.pop_level();
        }
    }

    /// Each level began where unit clauses gave nothing more.
    pub fn levels_closed(&self)
        requires { Sound (lists_of self.now) }
        ensures { (n s : ℕ) → slice_get self.now.starts.items n ≡ Some s → Closed (lists_of self.now) s }
    {
        let _ = &self.starts;
    }
}
