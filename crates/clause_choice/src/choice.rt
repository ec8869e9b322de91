//! Which variable is decided next, with which value, and when the search begins anew.
//!
//! No contract names what is chosen here, so a better choice can take this one's place. Variables
//! are chosen by activity with decay, over a heap, as in M. Moskewicz and others, Chaff:
//! engineering an efficient SAT solver, 2001; values are the saved ones of K. Pipatsrisawat and
//! A. Darwiche, A lightweight component caching scheme for satisfiability solvers, 2007, but where
//! the longest trail so far that met no conflict had another, as in A. Biere and others, CaDiCaL,
//! Kissat, Paracooba, Plingeling and Treengeling, 2020; restarts follow the sequence of M. Luby,
//! A. Sinclair and D. Zuckerman, Optimal speedup of Las Vegas algorithms, 1993.

ghost use Rattle.std.specs.Prelude.{◌<◌, ◌≤◌};

use clause_logic::Lit;
use std::alloc::{AllocError, Global};

/// How many conflicts the unit of the restart sequence is.
const UNIT: u64 = 140;

/// Where a variable stands that is not in the heap.
const ABSENT: usize = usize::MAX;

/// The heap of variables by activity, the saved values, and those of the longest trail that met no
/// conflict.
#[derive(Drop)]
pub struct Choice {
    activity: Vec<u64>,
    phases: Vec<bool>,
    longest: Vec<Option<bool>>,
    length: usize,
    index: Vec<usize>,
    heap: Vec<usize>,
    size: usize,
    step: u64,
    left: u64,
    luby_at: u64,
    luby: u64,
}

impl Choice {
    /// A choice among no variables. It takes no memory.
    pub fn new(alloc: Global) -> Choice {
        Choice {
            activity: Vec::new(alloc),
            phases: Vec::new(alloc),
            longest: Vec::new(alloc),
            length: 0,
            index: Vec::new(alloc),
            heap: Vec::new(alloc),
            size: 0,
            step: 1_048_576,
            left: UNIT,
            luby_at: 1,
            luby: 1,
        }
    }

    /// Takes one variable more into the choice.
    pub fn add_var(&mut self) -> Result<(), AllocError> {
        let var = self.index.len();
        self.activity.push(0)?;
        self.phases.push(false)?;
        self.longest.push(None)?;
        self.heap.push(0)?;
        self.index.push(ABSENT)?;
        self.insert(var);
        Ok(())
    }

    /// Saves the value of a variable that loses it, and makes it ready to be chosen.
    pub fn release(&mut self, var: usize, phase: bool) {
        if var < self.phases.len() {
            self.phases[var] = phase;
        }
        if self.index_of(var) == ABSENT {
            self.insert(var);
        }
    }

    /// Saves the values of the literals that are true, and makes their variables ready to be chosen.
    pub fn release_all(&mut self, trail: &[Lit]) {
        for lit in trail {
            self.release(lit.var, lit.positive);
        }
    }

    /// Keeps the values of the first literals of a trail, which met no conflict, if they are more
    /// than ever before.
    pub fn note(&mut self, trail: &[Lit], length: usize) {
        if length > self.length {
            self.length = length;
            self.longest.fill(None);
            self.copy(trail, length);
        }
    }

    fn copy(&mut self, trail: &[Lit], length: usize) {
        for lit in trail.iter().take(length) {
            if lit.var < self.longest.len() {
                self.longest[lit.var] = Some(lit.positive);
            }
        }
    }

    /// Takes values over that were saved before, by the numbers of their variables.
    pub fn take_phases(&mut self, phases: &[bool]) {
        for var in 0..phases.len() {
            if var < self.phases.len() {
                self.phases[var] = phases[var];
            }
        }
    }

    /// Hands the saved values over.
    pub fn give_phases(&self, phases: &mut [bool]) {
        for var in 0..phases.len() {
            if var < self.phases.len() {
                phases[var] = self.phases[var];
            }
        }
    }

    /// The variable of the highest activity that has no value, with the value that it is to have.
    pub fn next(&mut self, values: &[Option<bool>]) -> Option<Lit> {
        for tried in 0..self.size {
            let var = self.pop()?;
            if var < values.len() && values[var].is_none() {
                return Some(Lit {
                    var,
                    positive: self.phase_of(var),
                });
            }
        }
        None
    }

    /// The value of a variable on the longest trail that met no conflict, or the saved one.
    fn phase_of(&self, var: usize) -> bool {
        if var < self.longest.len() && var < self.phases.len() {
            self.longest[var].unwrap_or(self.phases[var])
        } else {
            false
        }
    }

    /// Raises the activities of variables that had a part in a conflict, and lets the others
    /// decay.
    pub fn bump_all(&mut self, vars: &[usize]) {
        for var in vars {
            self.bump(*var);
        }
        self.step = self.step.saturating_add(self.step / 20);
        if self.step > 36_028_797_018_963_968 {
            self.rescale();
        }
    }

    /// Whether the search is to begin anew, after one conflict more.
    pub fn restart_due(&mut self) -> bool {
        if self.left > 0 {
            self.left -= 1;
            return false;
        }
        if self.luby_at & (!self.luby_at).wrapping_add(1) == self.luby {
            self.luby_at = self.luby_at.wrapping_add(1);
            self.luby = 1;
        } else {
            self.luby = self.luby.wrapping_mul(2);
        }
        self.left = self.luby.saturating_mul(UNIT);
        true
    }

    fn bump(&mut self, var: usize) {
        if var < self.activity.len() {
            self.activity[var] = self.activity[var].saturating_add(self.step);
        }
        let place = self.index_of(var);
        if place < self.size {
            self.sift_up(place);
        }
    }

    /// Makes all activities small again.
    fn rescale(&mut self) {
        for activity in self.activity.iter_mut() {
            *activity = *activity / 1_099_511_627_776;
        }
        self.step = self.step / 1_099_511_627_776;
    }

    fn activity_of(&self, var: usize) -> u64 {
        if var < self.activity.len() {
            self.activity[var]
        } else {
            0
        }
    }

    fn index_of(&self, var: usize) -> usize {
        if var < self.index.len() {
            self.index[var]
        } else {
            ABSENT
        }
    }

    fn at(&self, place: usize) -> usize {
        if place < self.heap.len() {
            self.heap[place]
        } else {
            0
        }
    }

    fn put(&mut self, place: usize, var: usize) {
        if place < self.heap.len() {
            self.heap[place] = var;
        }
        if var < self.index.len() {
            self.index[var] = place;
        }
    }

    fn insert(&mut self, var: usize) {
        let place = self.size;
        if place < self.heap.len() {
            self.put(place, var);
            self.size = place + 1;
            self.sift_up(place);
        }
    }

    fn pop(&mut self) -> Option<usize> {
        if self.size == 0 {
            return None;
        }
        let top = self.at(0);
        self.size -= 1;
        let last = self.at(self.size);
        self.put(0, last);
        if top < self.index.len() {
            self.index[top] = ABSENT;
        }
        if self.size > 0 {
            self.sift_down();
        }
        Some(top)
    }

    /// Moves the variable at a place towards the root of the heap.
    fn sift_up(&mut self, from: usize) {
        let mut place = from;
        let var = self.at(from);
        let activity = self.activity_of(var);
        while place > 0 {
            let parent = (place - 1) / 2;
            let above = self.at(parent);
            if self.activity_of(above) >= activity {
                break;
            }
            self.put(place, above);
            place = parent;
        }
        self.put(place, var);
    }

    /// Of two places next to one another, the one of the higher activity.
    fn higher(&self, left: usize, size: usize) -> usize
        requires { left < size }
        ensures below { result < size }
        ensures from { left ≤ result }
    {
        if left < size - 1 {
            let right = left + 1;
            if self.activity_of(self.at(right)) > self.activity_of(self.at(left)) {
                return right;
            }
        }
        left
    }

    /// Moves the variable at the root of the heap away from it.
    fn sift_down(&mut self) {
        let size = self.size;
        let mut place = 0;
        let var = self.at(0);
        let activity = self.activity_of(var);
        while place < size / 2 {
            let child = self.higher(2 * place + 1, size);
            let below = self.at(child);
            if self.activity_of(below) <= activity {
                break;
            }
            self.put(place, below);
            place = child;
        }
        self.put(place, var);
    }
}
