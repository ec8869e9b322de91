//! The words after the program's name.

ghost use Rattle.std.specs.Prelude.{◌≡◌, ◌↔◌, ℕ, List, [], ◌∷◌, IsTrue, IfOk, IfErr, MatchOption, codes, map, string_bytes};
ghost use Rattle.yices_cli.specs.declared.words.Mode.{Mode};
ghost use Rattle.yices_cli.specs.Words.{IsLimit, HasMode, IsUsage};

use clause_search::Turns;

/// What the program does with its input.
#[derive(Clone, Copy, Debug, PartialEq, Eq)]
pub enum Mode {
    /// It answers the commands of the language. Each check may take so many turns.
    Language(Turns),
    /// It answers a script of calls, a line each.
    Calls,
}

/// What the words ask for. The error is the word at fault, counted from 1: the least number of first
/// words with which no valid words begin, or their number plus one, where a word is missing.
pub fn mode_of(words: &Vec<String>) -> Result<Mode, usize>
    ensures valid { IfOk result (HasMode (map string_bytes words.now.items)) }
    ensures usage { IfErr result (IsUsage (map string_bytes words.now.items)) }
{
    let [first, others @ ..] = words.as_slice() else {
        return Ok(Mode::Language(Turns::Whole));
    };
    let word = first.as_str();
    if is_turns(word) {
        return mode_behind_turns(others);
    }
    let Some(mode) = mode_of_word(word) else {
        return Err(1);
    };
    if !others.is_empty() {
        return Err(2);
    }
    Ok(mode)
}

/// What `--turns` and the words behind it ask for.
fn mode_behind_turns(others: &[String]) -> Result<Mode, usize>
    ensures valid { IfOk result (HasMode (codes "--turns" ∷ map string_bytes others.now)) }
    ensures usage { IfErr result (IsUsage (codes "--turns" ∷ map string_bytes others.now)) }
{
    let [digits, behind @ ..] = others else {
        return Err(2);
    };
    let Some(limit) = limit_of(digits.as_str()) else {
        return Err(2);
    };
    if !behind.is_empty() {
        return Err(3);
    }
    Ok(Mode::Language(Turns::Counted(limit)))
}

/// Whether the word is `--turns`.
fn is_turns(word: &str) -> bool
    ensures { IsTrue result ↔ (word.now ≡ codes "--turns") }
{
    word == "--turns"
}

/// What a word alone asks for.
fn mode_of_word(word: &str) -> Option<Mode>
    ensures { MatchOption result ((m : Mode) → HasMode (word.now ∷ []) m → ⊥) (HasMode (word.now ∷ [])) }
{
    if word == "--calls" {
        return Some(Mode::Calls);
    }
    let digits = word.strip_prefix("--turns=")?;
    let limit = limit_of(digits)?;
    Some(Mode::Language(Turns::Counted(limit)))
}

/// The limit that a word is: decimal digits whose number is below `2^64`.
fn limit_of(digits: &str) -> Option<u64>
    ensures { MatchOption result ((n : ℕ) → IsLimit digits.now n → ⊥) (IsLimit digits.now) }
{
    if digits.starts_with('+') {
        return None;
    }
    digits.parse::<u64>().ok()
}
