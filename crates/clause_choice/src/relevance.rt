//! Which learned clauses are kept when the search throws some away.
//!
//! No contract names what is chosen here, so a better choice can take this one's place. A clause
//! is as relevant as it was active in conflicts, the newer ones counting more; the half that is
//! less active goes, but never a clause of two literals. This is the rule of N. Eén and
//! N. Sörensson, An extensible SAT-solver, 2003, but that the room is counted in literals: long
//! clauses make propagation dear, and fill it sooner.

use std::alloc::{AllocError, Global};

/// How many literals of learned clauses there is room for at first.
const ROOM: usize = 10_000;

/// How many literals of learned clauses there is room for, for each clause that was added.
const SHARE: usize = 5;

/// The clauses that are never thrown away.
const ALWAYS: u64 = u64::MAX;

/// The activity of a conflict from which on all activities are made small again.
const HIGH: u64 = 1_125_899_906_842_624;

/// How much smaller they are made.
const SCALE: u64 = 1_048_576;

/// How active a learned clause was, and how many literals it has.
#[derive(Clone, Copy)]
struct Learned {
    activity: u64,
    lits: usize,
}

/// The learned clauses, in their order.
#[derive(Drop)]
pub struct Relevance {
    first: usize,
    clauses: Vec<Learned>,
    lits: usize,
    step: u64,
    room: usize,
    least: u64,
}

impl Relevance {
    /// No learned clauses. It takes no memory.
    pub fn new(alloc: Global) -> Relevance {
        Relevance {
            first: 0,
            clauses: Vec::new(alloc),
            lits: 0,
            step: SCALE,
            room: ROOM,
            least: 0,
        }
    }

    /// The learned clauses begin after so many others.
    pub fn begin(&mut self, first: usize) {
        self.first = first;
        self.room = self.room.max(first.saturating_mul(SHARE));
    }

    /// Notes that a clause of so many literals was learned.
    pub fn learned(&mut self, lits: usize) {
        let activity = if lits < 3 { ALWAYS } else { self.step };
        let _ = self.clauses.push(Learned { activity, lits });
        self.lits = self.lits.saturating_add(lits);
    }

    /// Notes that a clause had a part in the newest conflict.
    pub fn touch(&mut self, clause: usize) {
        if clause >= self.first && clause - self.first < self.clauses.len() {
            let index = clause - self.first;
            let activity = self.clauses[index].activity;
            self.clauses[index].activity = activity.saturating_add(self.step);
        }
    }

    /// Notes a conflict: the reasons of the variables that stand at a place or past it.
    pub fn conflict(
        &mut self,
        vars: &[usize],
        places: &[usize],
        reasons: &[Option<usize>],
        start: usize,
    ) {
        for var in vars {
            if *var < places.len() && *var < reasons.len() && places[*var] >= start {
                if let Some(clause) = reasons[*var] {
                    self.touch(clause);
                }
            }
        }
        self.step = self.step.saturating_add(self.step / 1024);
        if self.step > HIGH {
            self.rescale();
        }
    }

    /// Makes all activities small again.
    fn rescale(&mut self) {
        for clause in self.clauses.iter_mut() {
            if clause.activity < ALWAYS {
                clause.activity = clause.activity / SCALE;
            }
        }
        self.step = self.step / SCALE;
    }

    /// Whether the learned clauses fill their room.
    pub fn is_full(&self) -> bool {
        self.lits >= self.room
    }

    /// Chooses what is kept, and makes more room for the next time.
    pub fn choose(&mut self, alloc: Global) -> Result<(), AllocError> {
        let mut sorted = self
            .clauses
            .iter()
            .map(|clause| clause.activity)
            .collect::<Vec<u64>>(alloc)?;
        sorted.sort_unstable();
        let middle = sorted.len() / 2;
        self.least = sorted.get(middle).copied().unwrap_or(0);
        self.room = self.room.saturating_add(self.room / 20);
        Ok(())
    }

    /// Whether a clause is kept, by the newest choice.
    pub fn keeps(&self, clause: usize) -> bool {
        if clause < self.first {
            return true;
        }
        match self.clauses.get(clause - self.first) {
            Some(learned) => learned.activity >= self.least,
            None => true,
        }
    }

    /// Forgets the clauses that are not kept.
    pub fn thin(&mut self) {
        let least = self.least;
        self.clauses.retain(|clause| clause.activity >= least);
        self.recount();
    }

    /// Counts the literals anew.
    fn recount(&mut self) {
        let mut lits = 0usize;
        for clause in &self.clauses {
            lits = lits.saturating_add(clause.lits);
        }
        self.lits = lits;
    }
}
