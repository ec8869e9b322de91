//! Reading and writing: names of texts, the traits of what is read and written, and their forms in
//! memory, with faults, and over the host's files and standard streams.
#![tactic(auto)]

mod failed;
mod failing;
mod file_name;
mod host;
mod memory;
mod sink;
mod source;
mod text;

pub use failed::Failed;
pub use failing::{FailingSink, FailingSource};
pub use file_name::FileName;
pub use host::{StdSink, StdSource};
pub use memory::{MemorySink, MemorySource};
pub use sink::{Sink, write_all};
pub use source::Source;
pub use text::Text;

#[cfg(test)]
mod tests;
