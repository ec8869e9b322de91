//! Handles of contexts.

/// A handle of a context: a key, and the number of contexts that were made before.
#[derive(Clone, Copy, Debug, PartialEq, Eq)]
pub struct ContextId {
    /// The key, from 0 on. Keys are used again.
    pub key: usize,
    /// How many contexts were made before.
    pub stamp: u64,
}
