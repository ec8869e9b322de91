//! Texts read as values.
//!
//! A function's text is words between fixed texts. Each word ends at a space or a bracket and holds none, and each fixed
//! text begins with one, so a text splits in one way alone: what is read at a place is what every reading of the whole
//! text has there. Where a word or a fixed text is missing, no reading of the text is left.
ghost use Rattle.std.specs.Prelude.{◌≡◌, ◌<◌, ◌≤◌, ◌++◌, ℕ, Bool, List, true, false, drop, length, codes, IsTrue, IfOk, MatchOption, MatchResult};
ghost use Rattle.y_tree.specs.Sorts.{Sorts, function, is_sort, is_simple, are_simple};
ghost use Rattle.y_tree.specs.Values.{empty, has_sort};
ghost use Rattle.y_tree.specs.Order.{is_formed, is_rising};
ghost use Rattle.value_texts.specs.Texts.{value_text};
ghost use Rattle.value_texts.specs.Reading.{IsOfWiderForm, Refuses};
ghost use Rattle.value_texts.specs.Pieces.{AreKeys, OnlyKeys, NoKeys, IsLine, IsOnlyRest, NoRest, Fails, IsFront, NoFront, IsNext};
ghost use Rattle.y_tree.specs.Plain.{plain_sort, plain_sorts, plain_value, plain_values, plain_entry, plain_entries, plain_function};

use crate::errors::ValueError;
use crate::numbers::after;
use crate::words::{Word, read_word, word_end};
use std::alloc::Global;
use y_tree::{Entry, FunValue, Sort, Value, Values, cmp_keys};

/// The value of a type with that text.
///
/// Errors: `BadText` exactly where the text isn't of the wider form, in which a fraction may have a number past
/// `2^127 - 1`; `Wide` exactly where it is and has one; else want of memory. No text that is read has such a number. The
/// numbers of a wider form needn't be in lowest terms, and where one stands in a key, the keys may stand in any order.
/// Cost: a few looks at each byte.
#[tactic(auto, unfolding(y_tree::specs::Plain::plain_sort))]
pub fn read_value(alloc: Global, text: &[u8], of: &Sort) -> Result<Value, ValueError>
    requires { IsTrue (is_sort (plain_sort of.now)) }
    ensures value { MatchResult result
        (λ v. (has_sort (plain_value v) (plain_sort of.now) ≡ true) × (is_formed (plain_value v) ≡ true) × (value_text (plain_value v) ≡ text.now))
        (λ e. Refuses (plain_sort of.now) text.now e) }
    ensures within { IfOk result (λ _. IsOfWiderForm (plain_sort of.now) true text.now → ⊥) }
{
    match of {
        Sort::Fun(domain, range) => {
            let f = read_function(alloc, text, domain.as_slice(), range.get())?;
            Ok(Value::Fun(f))
        }
        _ => read_simple(text, of),
    }
}

// The value of a type of no functions.
fn read_simple(text: &[u8], of: &Sort) -> Result<Value, ValueError>
    requires { IsTrue (is_simple (plain_sort of.now)) }
    ensures value { MatchResult result
        (λ v. (has_sort (plain_value v) (plain_sort of.now) ≡ true) × (is_formed (plain_value v) ≡ true) × (value_text (plain_value v) ≡ text.now))
        (λ e. Refuses (plain_sort of.now) text.now e) }
    ensures within { IfOk result (λ _. IsOfWiderForm (plain_sort of.now) true text.now → ⊥) }
{
    let Some(word) = read_word(text, of) else {
        return Err(ValueError::BadText);
    };
    if word.wide {
        return Err(ValueError::Wide);
    }
    Ok(word.value)
}

// The function from these types to that one.
fn read_function(
    alloc: Global,
    text: &[u8],
    domain: &[Sort],
    range: &Sort,
) -> Result<FunValue, ValueError>
    requires simple { IsTrue (are_simple (plain_sorts domain.now)) }
    requires some { 0 < length domain.now }
    requires last { IsTrue (is_simple (plain_sort range.now)) }
    ensures value { MatchResult result
        (λ f. (has_sort (plain_function f) (function (plain_sorts domain.now) (plain_sort range.now)) ≡ true) × (is_formed (plain_function f) ≡ true) × (value_text (plain_function f) ≡ text.now))
        (λ e. Refuses (function (plain_sorts domain.now) (plain_sort range.now)) text.now e) }
    ensures within { IfOk result (λ _. IsOfWiderForm (function (plain_sorts domain.now) (plain_sort range.now)) true text.now → ⊥) }
{
    let Some(rest) = after(text, b"(function") else {
        return Err(ValueError::BadText);
    };
    let read = read_rest(alloc, rest, domain, range)?;
    if !read.wide_key && !is_rising(read.entries.as_slice()) {
        return Err(ValueError::BadText);
    }
    if read.wide {
        return Err(ValueError::Wide);
    }
    Ok(FunValue::from_entries(alloc, read.entries, read.default_value)?)
}

// Whether each key comes before the next one.
#[tactic(auto, unfolding(y_tree::specs::Order::is_rising))]
fn is_rising(entries: &[Entry]) -> bool
    ensures { result ≡ is_rising (plain_entries entries.now) }
{
    for i in 1..entries.len() {
        let before = &entries[i - 1];
        let here = &entries[i];
        if !cmp_keys(before.key.as_slice(), here.key.as_slice()).is_lt() {
            return false;
        }
    }
    true
}

// What stands behind the front of a function's text: entries and the value elsewhere. The flags say whether a key, and
// whether any word, has a number past the bound.
#[derive(Drop)]
struct Rest {
    entries: Vec<Entry>,
    default_value: Value,
    wide_key: bool,
    wide: bool,
}

fn read_rest(alloc: Global, text: &[u8], domain: &[Sort], range: &Sort) -> Result<Rest, ValueError>
    requires simple { IsTrue (are_simple (plain_sorts domain.now)) }
    requires some { 0 < length domain.now }
    requires last { IsTrue (is_simple (plain_sort range.now)) }
    ensures { MatchResult result
        (λ r. IsOnlyRest (plain_sorts domain.now) (plain_sort range.now) text.now (plain_entries r.entries.items) (plain_value r.default_value) r.wide_key r.wide)
        (λ e. Fails (NoRest (plain_sorts domain.now) (plain_sort range.now) text.now) e) }
{
    let mut entries = Vec::new(alloc);
    let mut wide_key = false;
    let mut wide = false;
    let mut rest = text;
    while let Some(inner) = after(rest, b" (") {
        let line = read_line(alloc, inner, domain, range)?;
        entries.push(line.entry)?;
        wide_key |= line.wide_key;
        wide |= line.wide;
        rest = &inner[line.end..];
    }
    let Some(word) = read_default(rest, range) else {
        return Err(ValueError::BadText);
    };
    Ok(Rest {
        entries,
        default_value: word.value,
        wide_key,
        wide: wide | word.wide,
    })
}

// The value elsewhere, where no entry stands before it.
fn read_default(text: &[u8], of: &Sort) -> Option<Word>
    requires { IsTrue (is_simple (plain_sort of.now)) }
    ensures { ((rest : List ℕ) → text.now ≡ codes " (" ++ rest → ⊥) → (domain : Sorts) → MatchOption result (NoRest domain (plain_sort of.now) text.now)
        (λ w. IsOnlyRest domain (plain_sort of.now) text.now empty (plain_value w.value) false w.wide) }
{
    let rest = after(text, b" default ")?;
    let front = read_front(rest, of)?;
    let rest = after(&rest[front.end..], b")")?;
    if !rest.is_empty() {
        return None;
    }
    Some(Word {
        value: front.value,
        wide: front.wide,
    })
}

// An entry. The flags say whether its key, and whether any of its words, has a number past the bound.
#[derive(Drop)]
struct Line {
    entry: Entry,
    wide_key: bool,
    wide: bool,
    end: usize,
}

// The entry whose space and bracket were read.
fn read_line(alloc: Global, text: &[u8], domain: &[Sort], range: &Sort) -> Result<Line, ValueError>
    requires simple { IsTrue (are_simple (plain_sorts domain.now)) }
    requires some { 0 < length domain.now }
    requires last { IsTrue (is_simple (plain_sort range.now)) }
    ensures { MatchResult result
        (λ l. (l.end ≤ length text.now) × IsLine (plain_sorts domain.now) (plain_sort range.now) text.now (drop l.end text.now) (plain_entry l.entry).0 (plain_entry l.entry).1 l.wide_key l.wide)
        (λ e. Fails (NoRest (plain_sorts domain.now) (plain_sort range.now) (codes " (" ++ text.now)) e) }
{
    let keys = read_keys(alloc, text, domain)?;
    let Some(front) = read_front(&text[keys.end..], range) else {
        return Err(ValueError::BadText);
    };
    Ok(Line {
        entry: Entry {
            key: keys.keys,
            value: front.value,
        },
        wide_key: keys.wide,
        wide: keys.wide | front.wide,
        end: keys.end + front.end,
    })
}

// Keys, whether one has a number past the bound, and where the text goes on behind them.
#[derive(Drop)]
struct Keys {
    keys: Values,
    wide: bool,
    end: usize,
}

fn read_keys(alloc: Global, text: &[u8], domain: &[Sort]) -> Result<Keys, ValueError>
    requires simple { IsTrue (are_simple (plain_sorts domain.now)) }
    requires some { 0 < length domain.now }
    ensures { MatchResult result
        (λ k. (k.end ≤ length text.now) × OnlyKeys (AreKeys (plain_sorts domain.now) text.now) (plain_values k.keys) k.wide (drop k.end text.now))
        (λ e. Fails (NoKeys (AreKeys (plain_sorts domain.now) text.now)) e) }
{
    let Some(first) = read_front(text, &domain[0]) else {
        return Err(ValueError::BadText);
    };
    let mut keys = Values::new(alloc);
    let mut wide = first.wide;
    let mut rest = &text[first.end..];
    keys.push(first.value)?;
    for i in 1..domain.len() {
        let Some(front) = read_next(rest, &domain[i]) else {
            return Err(ValueError::BadText);
        };
        wide |= front.wide;
        rest = &rest[front.end..];
        keys.push(front.value)?;
    }
    match after(rest, b") ") {
        Some(rest) => Ok(Keys {
            keys,
            wide,
            end: text.len() - rest.len(),
        }),
        None => Err(ValueError::BadText),
    }
}

// A word in front of a text, and where it ends.
#[derive(Drop)]
struct Front {
    value: Value,
    wide: bool,
    end: usize,
}

fn read_front(text: &[u8], of: &Sort) -> Option<Front>
    requires { IsTrue (is_simple (plain_sort of.now)) }
    ensures { MatchOption result (NoFront (plain_sort of.now) text.now)
        (λ f. (f.end ≤ length text.now) × IsFront (plain_sort of.now) text.now (plain_value f.value) f.wide (drop f.end text.now)) }
{
    let end = word_end(text);
    let word = read_word(&text[..end], of)?;
    Some(Front {
        value: word.value,
        wide: word.wide,
        end,
    })
}

// A word behind a space.
fn read_next(text: &[u8], of: &Sort) -> Option<Front>
    requires { IsTrue (is_simple (plain_sort of.now)) }
    ensures { MatchOption result ((rest : List ℕ) → text.now ≡ codes " " ++ rest → NoFront (plain_sort of.now) rest)
        (λ f. (f.end ≤ length text.now) × IsNext (plain_sort of.now) text.now (plain_value f.value) f.wide (drop f.end text.now)) }
{
    let rest = after(text, b" ")?;
    let front = read_front(rest, of)?;
    Some(Front {
        value: front.value,
        wide: front.wide,
        end: front.end + 1,
    })
}
