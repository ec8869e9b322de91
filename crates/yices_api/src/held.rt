//! What a key holds.
ghost use Rattle.std.specs.Prelude.{◌≡◌, Some};
ghost use Rattle.std.specs.Option.{option_copied};
ghost use Rattle.yices_api.specs.State.{context_under};

use context_stack::Context;

/// A context under the stamp of its handle.
#[derive(Drop)]
pub struct Held {
    pub(crate) stamp: u64,
    pub(crate) context: Context,
}

impl Held {
    /// The context, where that is the stamp of its handle.
    pub(crate) fn under(&self, stamp: u64) -> Option<&Context>
        ensures { option_copied result ≡ context_under stamp (Some self.now) }
    {
        if self.stamp == stamp {
            Some(&self.context)
        } else {
            None
        }
    }
}
