//! A clause search in which each variable that stands for a gate is told with its gate.
//!
//! What a search learns names such variables too. So whoever writes its clauses down needs to know
//! what each of them is: `gates` gives for each variable a gate over older literals. The clauses of
//! the search are then just those that the caller gave and those of the gates.

ghost use Rattle.std.specs.Prelude.{◌≡◌, ◌<◌, ◌↔◌, [], true, false, List, ℕ, Bool, None, IfOk, OnOk, OnErr, IfSome, IfNone};
ghost use Rattle.std.specs.Bool.{OnTrue, OnFalse};
ghost use Rattle.clause_logic.specs.declared.Lit.{Lit};
ghost use Rattle.clause_logic.specs.Clauses.{In, Listed};
ghost use Rattle.clause_search.specs.Answers.{Justified};
ghost use Rattle.clause_gates.specs.Built.{IsCircuit, HasGate, with_var, with_clause};
ghost use Rattle.clause_gates.specs.Circuits.{Grows, Computes};
ghost use Rattle.clause_gates.specs.Gates.{IsOlder, gate_clauses, gate_value};

use crate::defining::{Gate, add_gate};
use clause_logic::Lit;
use clause_logic::lists::Clauses;
use clause_search::{Answer, Checker, Search, Turns};
use std::alloc::{AllocError, Global};
use std::marker::{Model, PhantomData};
use y_erased::{Erased, Makes, made};

/// No clause yet.
struct NoClauses;

impl Makes for NoClauses {
    type From = ();

    type With = ();

    type Of = Clauses;

    ghost make = { λ _ _. [] };
}

/// One more clause of the caller's.
struct ClauseGiven<'a> {
    of: PhantomData<&'a ()>,
}

impl<'a> Makes for ClauseGiven<'a> {
    ghost use Rattle.std.specs.Prelude.{◌++◌, ◌∷◌, []};

    type From = Erased<Clauses>;

    type With = &'a [Lit];

    type Of = Clauses;

    ghost make = { λ given clause. given.value ++ clause.now ∷ [] };
}

/// A clause search with the gates of its variables.
#[derive(Drop)]
pub struct Circuit {
    search: Search,
    gates: Vec<Option<Gate>>,
    given: Erased<Clauses>,
    whole: bool,
}

impl Model for Circuit {
    ghost use Rattle.clause_gates.specs.Built.{Built};

    ghost Value = { Built };

    ghost use Rattle.clause_gates.specs.Layout.{built_of, IsLaidOut};

    ghost view = { built_of };

    ghost invariant = { IsLaidOut };
}

impl Circuit {
    /// A circuit with no variables and no clauses. It takes no memory.
    pub fn new(alloc: Global) -> Circuit
        ensures vars { result.content.vars ≡ 0 }
        ensures clauses { result.content.clauses ≡ [] }
        ensures gates { result.gates ≡ [] }
        ensures given { result.given ≡ [] }
        ensures whole { result.whole ≡ true }
    {
        Circuit {
            search: Search::new(alloc),
            gates: Vec::new(alloc),
            given: made::<NoClauses>(&(), &()),
            whole: true,
        }
    }

    /// How many variables there are.
    pub fn vars(&self) -> usize
        ensures { result ≡ self.now.content.vars }
    {
        self.search.vars()
    }

    /// The gate of each variable, by its number; none for a variable of the caller's. No answer
    /// where a gate was refused memory, so that some of its clauses may be missing.
    pub fn gates(&self) -> Option<&[Option<Gate>]>
        ensures gates { IfSome result (λ gates. gates.now ≡ self.now.gates) }
        ensures whole { IfSome result (λ gates. self.now.whole ≡ true) }
        ensures none { IfNone result (self.now.whole ≡ false) }
        ensures circuit { IsCircuit self.now }
    {
        if self.whole { Some(&self.gates) } else { None }
    }

    /// Makes a variable of the caller's, and answers its number.
    pub fn new_var(&mut self) -> Result<usize, AllocError>
        ensures number { IfOk result (λ v. v ≡ self.old.content.vars) }
        ensures ok { OnOk result (self.new ≡ with_var self.old) }
        ensures err { OnErr result (self.new ≡ self.old) }
    {
        self.gates.reserve(1)?;
        let var = self.search.new_var()?;
        self.gates.push(None)?;
        Ok(var)
    }

    /// Whether all literals name variables that there are.
    pub fn knows(&self, lits: &[Lit]) -> bool
        ensures yes { OnTrue result ((l : Lit) → In l lits.now → l.var < self.now.content.vars) }
        ensures no { OnFalse result (((l : Lit) → In l lits.now → l.var < self.now.content.vars) → ⊥) }
    {
        self.search.knows(lits)
    }

    /// Adds a clause of the caller's. It takes time in the number of its literals.
    pub fn add_clause(&mut self, lits: &[Lit]) -> Result<(), AllocError>
        requires { (l : Lit) → In l lits.now → l.var < self.old.content.vars }
        ensures ok { OnOk result (self.new ≡ with_clause self.old lits.now) }
        ensures err { OnErr result (self.new ≡ self.old) }
    {
        self.search.add_clause(lits)?;
        self.given = made::<ClauseGiven>(&self.given, &lits);
        Ok(())
    }

    /// Makes a variable for a gate, with the clauses that define it, and answers its literal. Where
    /// memory is refused, the variable and some of its clauses may be there.
    pub fn define(&mut self, gate: Gate) -> Result<Lit, AllocError>
        requires older { IsOlder self.old.content.vars gate }
        ensures grows { Grows self.old self.new 1 }
        ensures clauses { IfOk result (λ g. (c : List Lit) → Listed (gate_clauses g gate) c → Listed self.new.content.clauses c) }
        ensures ok { IfOk result (λ g. Computes self.new.content g (λ s. gate_value s gate)) }
        ensures told { IfOk result (λ g. HasGate self.new g.var gate) }
        ensures whole { OnOk result (self.new.whole ≡ self.old.whole) }
    {
        self.gates.reserve(1)?;
        let var = self.search.new_var()?;
        self.gates.push(Some(gate))?;
        let whole = self.whole;
        self.whole = false;
        let g = Lit {
            var,
            positive: true,
        };
        add_gate(&mut self.search, g, gate)?;
        self.whole = whole;
        Ok(g)
    }

    /// Looks for values that make all clauses and assumptions true, and that the checker accepts,
    /// as `Search::solve` does.
    pub fn solve<C: Checker>(
        &mut self,
        assumed: &[Lit],
        turns: Turns,
        checker: &mut C,
    ) -> Answer<C::Stop>
        requires known { (l : Lit) → In l assumed.now → l.var < self.old.content.vars }
        requires begun { C.newest checker.old ≡ None }
        ensures unchanged { self.new ≡ self.old }
        ensures stands { (c : List Lit) → C.stands checker.new c ↔ C.stands checker.old c }
        ensures justified { Justified self.old.content.vars self.old.content.clauses (C.stands checker.old) assumed.now turns (C.newest checker.new) result }
    {
        self.search.solve(assumed, turns, checker)
    }
}
