//! The names of texts that can be read.
ghost use Rattle.std.specs.Prelude.{◌≡◌, IsTrue, ◌↔◌};

use crate::text::Text;
use std::alloc::AllocError;

/// The name of a text: standard input, or a file. The order puts standard input first.
#[derive(Debug, Drop, PartialEq, Eq, PartialOrd, Ord)]
pub enum FileName {
    /// Standard input.
    Input,
    /// A file, by its path.
    Named(Text),
}

impl FileName {
    ghost use Rattle.y_io.specs.Names.{name_eq};

    /// Whether both are the same name. It takes O(n) steps for n bytes.
    pub fn is(&self, other: &FileName) -> bool
        ensures same { IsTrue result ↔ (self.now ≡ other.now) }
        ensures test { result ≡ name_eq self.now other.now }
    {
        match (self, other) {
            (FileName::Input, FileName::Input) => true,
            (FileName::Named(name), FileName::Named(other)) => name.as_bytes() == other.as_bytes(),
            _ => false,
        }
    }
}

impl Clone for FileName {
    ghost is_clone = { λ m n. n ≡ m };

    fn clone(&self) -> Result<FileName, AllocError> {
        match self {
            FileName::Input => Ok(FileName::Input),
            FileName::Named(name) => Ok(FileName::Named(name.clone()?)),
        }
    }
}
