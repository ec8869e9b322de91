//! Terms as a plain list.
use std::alloc::{AllocError, Global};
use term_table::Term;

/// A term by what it was made of: a kind of shape, and the places of two arguments in the list.
#[derive(Drop)]
pub(crate) struct Known {
    pub kind: u64,
    pub left: usize,
    pub right: usize,
    pub term: Term,
    pub count: u32,
    pub live: bool,
}

/// A meaning of a name: the place of a term.
#[derive(Drop)]
pub(crate) struct Meaning {
    pub name: usize,
    pub place: usize,
}

/// All terms that were ever made, and the meanings of names, from the oldest to the newest.
#[derive(Drop)]
pub(crate) struct Plain {
    pub known: Vec<Known>,
    pub names: Vec<Meaning>,
}

pub(crate) fn term_at(plain: &Plain, place: usize) -> Term {
    match plain.known.get(place) {
        Some(entry) => entry.term,
        None => Term { slot: 0, stamp: 0 },
    }
}

pub(crate) fn is_live(plain: &Plain, place: usize) -> bool {
    match plain.known.get(place) {
        Some(entry) => entry.live,
        None => false,
    }
}

pub(crate) fn count_at(plain: &Plain, place: usize) -> u32 {
    match plain.known.get(place) {
        Some(entry) => entry.count,
        None => 0,
    }
}

pub(crate) fn set_count(plain: &mut Plain, place: usize, count: u32) {
    if let Some(entry) = plain.known.get_mut(place) {
        entry.count = count;
    }
}

pub(crate) fn count_live(plain: &Plain) -> usize {
    let mut live = 0usize;
    for entry in &plain.known {
        if entry.live {
            live = live.wrapping_add(1);
        }
    }
    live
}

/// The place of the live term of that shape.
pub(crate) fn found(plain: &Plain, kind: u64, left: usize, right: usize) -> Option<usize> {
    for place in 0..plain.known.len() {
        if let Some(entry) = plain.known.get(place) {
            if entry.live && entry.kind == kind && entry.left == left && entry.right == right {
                return Some(place);
            }
        }
    }
    None
}

/// Whether no term ever had that handle.
pub(crate) fn is_new(plain: &Plain, term: Term) -> bool {
    for entry in &plain.known {
        if entry.term == term {
            return false;
        }
    }
    true
}

/// Whether a slot was used again: a handle has a later stamp.
pub(crate) fn is_reused(plain: &Plain) -> bool {
    for entry in &plain.known {
        if entry.term.stamp > 0 {
            return true;
        }
    }
    false
}

/// The place of the newest meaning of a name among the meanings.
pub(crate) fn newest(plain: &Plain, name: usize) -> Option<usize> {
    let mut newest = None;
    for place in 0..plain.names.len() {
        if let Some(meaning) = plain.names.get(place) {
            if meaning.name == name {
                newest = Some(place);
            }
        }
    }
    newest
}

/// The term that a name means.
pub(crate) fn meant(plain: &Plain, name: usize) -> Option<Term> {
    let meaning = plain.names.get(newest(plain, name)?)?;
    Some(term_at(plain, meaning.place))
}

/// The name of the oldest meaning that is that term.
pub(crate) fn name_of(plain: &Plain, place: usize) -> Option<usize> {
    for meaning in &plain.names {
        if meaning.place == place {
            return Some(meaning.name);
        }
    }
    None
}

/// Takes the newest meaning of a name away.
pub(crate) fn forget(plain: &mut Plain, name: usize) -> bool {
    match newest(plain, name) {
        Some(place) if place < plain.names.len() => {
            let _ = plain.names.remove(place);
            true
        }
        _ => false,
    }
}

fn keep(kept: &mut Vec<bool>, place: usize) {
    if let Some(flag) = kept.get_mut(place) {
        *flag = true;
    }
}

/// Which terms one of them, the counted ones and, where asked, the named ones reach.
pub(crate) fn reached(
    alloc: Global,
    plain: &Plain,
    root: usize,
    keep_named: bool,
) -> Result<Vec<bool>, AllocError> {
    let mut kept = Vec::new(alloc);
    for place in 0..plain.known.len() {
        let named = keep_named && name_of(plain, place).is_some();
        kept.push(place == root || count_at(plain, place) > 0 || named)?;
    }
    spread(plain, &mut kept);
    Ok(kept)
}

fn spread(plain: &Plain, kept: &mut Vec<bool>) {
    for place in (0..plain.known.len()).rev() {
        if kept.get(place).copied() == Some(true) {
            if let Some(entry) = plain.known.get(place) {
                keep(kept, entry.left);
                keep(kept, entry.right);
            }
        }
    }
}

/// Frees the terms that aren't kept. The answer is how many these are.
pub(crate) fn free(plain: &mut Plain, kept: &Vec<bool>) -> u32 {
    let mut freed = 0u32;
    for place in 0..plain.known.len() {
        if kept.get(place).copied() != Some(true) && is_live(plain, place) {
            if let Some(entry) = plain.known.get_mut(place) {
                entry.live = false;
            }
            freed = freed.wrapping_add(1);
        }
    }
    freed
}

/// The meanings of names that are live.
pub(crate) fn live_names(alloc: Global, plain: &Plain) -> Result<Vec<Meaning>, AllocError> {
    let mut names = Vec::new(alloc);
    for meaning in &plain.names {
        if is_live(plain, meaning.place) {
            let (name, place) = (meaning.name, meaning.place);
            names.push(Meaning { name, place })?;
        }
    }
    Ok(names)
}
