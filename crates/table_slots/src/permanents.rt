//! The slots of a new table.
ghost use Rattle.std.specs.Prelude.{◌≡◌, ℕ, ◌<◌, ◌++◌, ◌∷◌, [], List, Some, Bool, true, slice_get, length, IfOk, OnOk};
ghost use Rattle.stamped_slots.specs.Slots.{Slot, fresh, is_live};
ghost use Rattle.stamped_slots.specs.Regular.{IsAbsent};
ghost use Rattle.term_shapes.specs.declared.shapes.TypeShape.{TypeShape};
ghost use Rattle.term_shapes.specs.declared.shapes.Node.{Node};
ghost use Rattle.table_slots.specs.Nodes.{permanent, HoldsFirst, true_node, false_node};

use stamped_slots::Slots;
use std::alloc::{AllocError, Global};
use term_shapes::{Node, Shape, TypeId, TypeShape, node_equality, type_equality};

/// How many types are permanent.
const PERMANENT: u32 = 130;

/// The permanent type of that number.
fn permanent(i: u32) -> TypeShape
    ensures { result ≡ permanent i }
{
    if i == 0 {
        return TypeShape::Bool;
    }
    if i == 1 {
        return TypeShape::Real;
    }
    TypeShape::Bv(i - 1)
}

/// The permanent types: truth values, real numbers, and the bit-vectors of each width.
///
/// # Errors
///
/// Where memory is refused.
pub fn permanent_types(alloc: Global) -> Result<Slots<TypeShape>, AllocError>
    ensures { IfOk result (λ types. HoldsFirst types 130) }
{
    type_equality();
    let mut types = Slots::new(alloc);
    for i in 0..PERMANENT {
        push_type(&mut types, permanent(i))?;
    }
    Ok(types)
}

/// The permanent terms: true and false.
///
/// # Errors
///
/// Where memory is refused.
pub fn permanent_terms(alloc: Global) -> Result<Slots<Node>, AllocError>
    ensures { IfOk result (λ terms. terms ≡ fresh 0 true_node ∷ fresh 0 false_node ∷ []) }
{
    node_equality();
    let mut terms = Slots::new(alloc);
    let of = TypeId { slot: 0, stamp: 0 };
    let shape = Shape::True;
    push_term(&mut terms, Node { shape, of })?;
    let shape = Shape::False;
    push_term(&mut terms, Node { shape, of })?;
    Ok(terms)
}

/// Puts a type into a new slot, where no slot is free.
#[tactic(auto, using(crate::proofs::Pushing::pushed))]
fn push_type(types: &mut Slots<TypeShape>, shape: TypeShape) -> Result<(), AllocError>
    requires absent { IsAbsent ⟦<TypeShape as PartialEq>⟧.eq types.old shape }
    requires live { (i : ℕ) (s : Slot TypeShape) → slice_get types.old i ≡ Some s → is_live s ≡ true }
    ensures { OnOk result (types.new ≡ types.old ++ fresh 0 shape ∷ []) }
{
    match types.insert(shape) {
        Ok(_) => {}
        Err(_) => return Err(AllocError),
    }
    Ok(())
}

/// Puts a term into a new slot, where no slot is free.
#[tactic(auto, using(crate::proofs::Pushing::pushed))]
fn push_term(terms: &mut Slots<Node>, node: Node) -> Result<(), AllocError>
    requires absent { IsAbsent ⟦<Node as PartialEq>⟧.eq terms.old node }
    requires live { (i : ℕ) (s : Slot Node) → slice_get terms.old i ≡ Some s → is_live s ≡ true }
    ensures { OnOk result (terms.new ≡ terms.old ++ fresh 0 node ∷ []) }
{
    match terms.insert(node) {
        Ok(_) => {}
        Err(_) => return Err(AllocError),
    }
    Ok(())
}
