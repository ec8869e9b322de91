//! What the machine over tokens is to the grammar.
ghost use Rattle.yices_grammar.specs.Laws.{TokenDecides, RunsBegin, RunsComplete, OneProgram, NoBadLiteral, CommandsEnd};

/// The next token decides how a command goes on: the machine takes a token exactly where the tokens so
/// far begin a list of commands, and is between two commands exactly where they spell the commands that
/// it answered. No word of a list of commands is a literal of no form, and each command ends with a closing
/// bracket. Does nothing: its clauses are laws.
#[tactic(auto, using(crate::proofs::Lawful::runs_complete, crate::proofs::Lawful::one_program))]
pub fn the_next_token_decides()
    ensures token { TokenDecides }
    ensures begins { RunsBegin }
    ensures completes { RunsComplete }
    ensures one { OneProgram }
    ensures literals { NoBadLiteral }
    ensures ends { CommandsEnd }
{}
