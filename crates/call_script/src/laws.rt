//! What holds of all lines.
ghost use Rattle.call_script.specs.Laws.{SaysJudged, SaysOne, WordsDiffer, CallsAreFormed};

/// Each line says something, which is computed, and nothing else. A word is one call, and a call that a line
/// says has the form of its word. Does nothing: its clauses are laws.
pub fn a_line_says_one_thing()
    ensures computed { SaysJudged }
    ensures one { SaysOne }
    ensures words { WordsDiffer }
    ensures forms { CallsAreFormed }
{}
