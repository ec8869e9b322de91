//! New keys in the slots.
ghost use Rattle.std.specs.Prelude.{◌≡◌, IfOk, IfErr, OnErr};
ghost use Rattle.stamped_slots.specs.Slots.{Adds};
ghost use Rattle.stamped_slots.specs.Regular.{IsAbsent};
ghost use Rattle.table_slots.specs.Nodes.{RefusesSlot};

use shape_rules::TableError;
use stamped_slots::{Full, Slots};
use term_shapes::{Node, TypeShape};

/// Puts a new node into the slots. The answer is its slot and its stamp.
///
/// # Errors
///
/// `TableFull` where the live and the retired slots are `2^22`, then `NoMemory`. Then nothing changes.
pub fn put_term(terms: &mut Slots<Node>, node: Node) -> Result<(u32, u32), TableError>
    requires { IsAbsent ⟦<Node as PartialEq>⟧.eq terms.old node }
    ensures added { IfOk result (λ r. Adds terms.old terms.new r.0 r.1 node) }
    ensures full { IfErr result (λ e. RefusesSlot terms.old e) }
    ensures err { OnErr result (terms.new ≡ terms.old) }
{
    match terms.insert(node) {
        Ok(put) => Ok(put),
        Err(Full::Full) => Err(TableError::TableFull),
        Err(Full::NoMemory) => Err(TableError::NoMemory),
    }
}

/// Puts a new type into the slots. The answer is its slot and its stamp.
///
/// # Errors
///
/// `TableFull` where the live and the retired slots are `2^22`, then `NoMemory`. Then nothing changes.
pub fn put_type(types: &mut Slots<TypeShape>, shape: TypeShape) -> Result<(u32, u32), TableError>
    requires { IsAbsent ⟦<TypeShape as PartialEq>⟧.eq types.old shape }
    ensures added { IfOk result (λ r. Adds types.old types.new r.0 r.1 shape) }
    ensures full { IfErr result (λ e. RefusesSlot types.old e) }
    ensures err { OnErr result (types.new ≡ types.old) }
{
    match types.insert(shape) {
        Ok(put) => Ok(put),
        Err(Full::Full) => Err(TableError::TableFull),
        Err(Full::NoMemory) => Err(TableError::NoMemory),
    }
}
