//! The texts of values, written and read back.
//!
//! Its contract: `write_value` writes the text that `value_text` gives a value, and `read_value` is the way back: it
//! answers the value of the type that has the text, with `BadText` and `Wide` exactly where no value has it. A text
//! reads in one way alone because each word ends at a space or a bracket and holds none, and each fixed text of a
//! function begins with one. The texts are those in which Yices 2 prints values, with a function as one bracketed list
//! of its entries and its default.
#![tactic(auto)]

mod errors;
mod numbers;
mod read;
#[cfg(test)]
mod tests;
mod words;
mod write;

pub use errors::ValueError;
pub use read::read_value;
pub use write::write_value;
