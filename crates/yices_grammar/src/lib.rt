//! The input language as definitions: bytes, tokens, and the commands that a text spells.
//!
//! The grammar is one table of rules, each with what it stands for. The relation between tokens and
//! commands, and the machine that takes tokens one by one, are made of that table alone; the one contract
//! is that both are the same, which the next token decides. That the table passes the test of an LL(1)
//! grammar is computed; the theorem is proved for every table that does.
#![tactic(auto)]

mod laws;

pub use laws::the_next_token_decides;

/// A place in a text: lines are ended by byte 10, columns count bytes, and both begin at 1.
#[derive(Clone, Copy, Debug, PartialEq, Eq, Hash)]
pub struct Place {
    pub line: u64,
    pub column: u64,
}
