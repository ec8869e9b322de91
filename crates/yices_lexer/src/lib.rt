//! The tokens of the input language: how bytes make them, one by one, which words are names and literals,
//! what strings stand for, and places.
//!
//! Its one contract is [`next_byte`]: what a byte makes of the bytes before it is what the definition of a
//! text's pieces says of them all, so no byte is looked at twice. A word is known to be whole only at the
//! byte behind it, every other token at its last byte; where a text breaks, the first byte that nothing can
//! hold is told. The method is that of a finite automaton, with the bytes of the unfinished token kept.
#![tactic(auto)]

mod cursor;
mod lexer;
mod lexing;
mod quoted;
mod words;

pub use cursor::Cursor;
pub use lexer::Lexeme;
pub use lexing::{Ended, Lexed, Lexing, next_byte, quoted_text, word_text};
pub use quoted::content_of;
pub use words::{
    is_bad_literal, is_binary, is_count_operator, is_hex, is_name, is_number, is_operator,
    is_type_name, is_whole,
};
