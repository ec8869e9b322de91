//! What the operator of a shape is.
ghost use Rattle.std.specs.Prelude.{◌≡◌, ℕ, List, Some, true, false};
ghost use Rattle.y_tree.specs.Sorts.{Sort};
ghost use Rattle.y_tree.specs.Misfits.{row_of, a_bit_vector};
ghost use Rattle.y_tree.specs.Misfits as misfit;
ghost use Rattle.y_tree.specs.Laws.{wanted_behind, is_even};
ghost use Rattle.shape_rules.specs.Rules.{operator, IsAtom, IsOperator};

use crate::forms::{Form, form_of};
use term_shapes::Shape;

/// Whether the shape is that of a constant or a variable.
pub fn is_atom(shape: &Shape) -> bool
    ensures atom { result ≡ true → IsAtom shape.now }
    ensures operates { result ≡ false → IsOperator shape.now }
{
    matches!(shape, Shape::Const { .. } | Shape::Var { .. })
}

/// Whether all arguments have to be bit-vectors of one width.
#[tactic(auto, using(crate::proofs::Vectors::wants_vectors))]
pub fn is_even(shape: &Shape) -> bool
    ensures even { (ks : List Sort) → result ≡ is_even (row_of (operator shape.now) ks) }
    ensures vectors { result ≡ true → (ks : List Sort) (v : misfit.Wanted) (i : ℕ) → wanted_behind (row_of (operator shape.now) ks) i ≡ Some v → v ≡ a_bit_vector }
{
    match shape {
        Shape::Bv(op, _) => match form_of(*op) {
            Form::One | Form::Joined => false,
            Form::Two | Form::Test | Form::Some => true,
        },
        _ => false,
    }
}
