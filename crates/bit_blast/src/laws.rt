//! The law of words.

ghost use Rattle.bit_blast.specs.Laws.{WordsStay};

/// What a word stands for stays, where variables and clauses come in.
pub fn words_stay()
    ensures { WordsStay }
{}
