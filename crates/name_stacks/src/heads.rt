//! The newest meaning of each name, in a map by names.
ghost use Rattle.std.specs.Prelude.{◌≡◌, ℕ, List, IsSome, Some, None, OnOk, OnErr, string_bytes};
ghost use Rattle.std.specs.HashMap.{get_by_text};
ghost use Rattle.name_stacks.specs.Heads.{PutsHead, SameHeads};

use std::alloc::AllocError;
use std::collections::HashMap;

/// Gives a name this handle, or answers that memory was refused; then nothing changes.
pub fn add_head<H: Copy>(
    heads: &mut HashMap<String, H>,
    name: String,
    of: H,
) -> Result<(), AllocError>
    ensures ok { OnOk result (PutsHead heads.old heads.new (string_bytes name) (Some of)) }
    ensures err { OnErr result (SameHeads heads.old heads.new) }
{
    let _ = heads.insert(name, of)?;
    Ok(())
}

/// Gives a name that has a handle this one.
pub fn set_head<H: Copy>(heads: &mut HashMap<String, H>, name: &str, of: H)
    ensures { IsSome (get_by_text heads.old name.now) → PutsHead heads.old heads.new name.now (Some of) }
{
    if let Some(head) = heads.get_mut(name) {
        *head = of;
    }
}

/// Takes a name and its handle away.
pub fn drop_head<H: Copy>(heads: &mut HashMap<String, H>, name: &str)
    ensures { PutsHead heads.old heads.new name.now None }
{
    let _ = heads.remove(name);
}
