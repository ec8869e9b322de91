//! The texts of types and of terms, in the words of the input language.
//!
//! `write_type` and `write_term` answer what the definitions say: the text of a type is its grammar form, and that of a
//! term the form of its shape over the texts of its arguments (`Writes`); each live term has one text and no other. A text
//! of more than `2^26` bytes is refused as soon as what is written passes that.
//!
//! A text is cut at the arguments of its term: a gap stands before each of them and behind the last. What is begun and not
//! yet ended is a stack of terms, each with the number of its arguments that are begun, and one turn writes one gap. What
//! is written, with what the stack has left to write, is the whole text. So nothing recurs over the depth of a term, and a
//! term that is shared is written anew at each place. Writing ends since no term comes twice on a path of arguments.
#![tactic(auto)]

mod errors;
mod gaps;
mod laws;
mod terms;
#[cfg(test)]
mod tests;
mod types;

pub use errors::PrintError;
pub use laws::one_text;
pub use terms::write_term;
pub use types::write_type;
