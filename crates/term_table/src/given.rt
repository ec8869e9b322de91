//! The type of what a shape gives.
//!
//! Where the operator of the shape has a sort at those of its arguments, that sort is read off the operator alone, or off
//! the type of one argument. So the type is found in constant time, but for joined bit-vectors, whose widths are summed.
ghost use Rattle.std.specs.Prelude.{◌≡◌, ℕ, List, Some, true, slice_get};
ghost use Rattle.y_tree.specs.Sorts.{Sort, Sorts, function, bit_vector, is_width};
ghost use Rattle.y_tree.specs.Misfits.{width};
ghost use Rattle.y_tree.specs.Typing.{typed, typed_bits, typed_at, widths};
ghost use Rattle.term_shapes.specs.Shapes.{args_of};
ghost use Rattle.term_table.specs.World.{KeepsType};
ghost use Rattle.shape_rules.specs.Rules.{IsOperator, operator, bv_form, shape_result};
ghost use Rattle.term_table.specs.Checking.{HasSort, HaveSorts};

use crate::table::Table;
use shape_rules::{Form, form_of, shape_result};
use term_shapes::{Shape, Term, TypeId};
use y_tree::BvAtOp;

impl Table {
    /// The type that the shape gives, where its operator has a sort at those of its arguments.
    pub(crate) fn given(&self, shape: &Shape) -> TypeId
        ensures { (ks : List Sort) (k : Sort) → IsOperator shape.now → HaveSorts self.now (args_of shape.now) ks → typed (operator shape.now) ks ≡ Some k → KeepsType self.now result k }
    {
        match shape {
            Shape::Number(_) | Shape::Sum(_, _) => self.real_type(),
            Shape::Bits { width, .. } => self.vector(u128::from(*width)),
            Shape::Ite(_, yes, _) => self.type_or_bool(*yes),
            Shape::Update(function, _, _) => self.type_or_bool(*function),
            Shape::App(function, _) => self.result_type(*function),
            Shape::Bv(op, _) => self.given_by_form(shape, form_of(*op)),
            Shape::BvAt(op, first, second, of) => {
                self.given_by_numbers(*op, *first, *second, *of)
            }
            _ => self.bool_type(),
        }
    }

    /// The type of bit-vectors of that width, where there is one.
    fn vector(&self, width: u128) -> TypeId
        ensures { is_width width ≡ true → KeepsType self.now result (bit_vector width) }
    {
        match self.bv_type(width) {
            Ok(of) => of,
            Err(_) => self.bool_type(),
        }
    }

    /// The type of a live term.
    fn type_or_bool(&self, t: Term) -> TypeId
        ensures { (k : Sort) → HasSort self.now t k → KeepsType self.now result k }
    {
        match self.type_of(t) {
            Some(of) => of,
            None => self.bool_type(),
        }
    }

    /// The type of what a function gives.
    #[tactic(auto, using(crate::proofs::Rows::result_some, crate::proofs::Rows::no_shape_of))]
    fn result_type(&self, head: Term) -> TypeId
        ensures { (domain : Sorts) (k : Sort) → HasSort self.now head (function domain k) → KeepsType self.now result k }
    {
        match self.shape_of_type(head) {
            Some(shape) => shape_result(shape),
            None => self.bool_type(),
        }
    }

    /// The type of what an operator on bit-vectors gives.
    fn given_by_form(&self, shape: &Shape, form: Form) -> TypeId
        ensures { (ks : List Sort) (k : Sort) → HaveSorts self.now (args_of shape.now) ks → typed_bits (bv_form form) (widths ks) ≡ Some k → KeepsType self.now result k }
    {
        match form {
            Form::Test => self.bool_type(),
            Form::Joined => self.vector(self.all_widths(shape)),
            Form::One | Form::Two | Form::Some => self.first_type(shape),
        }
    }

    /// The type of the first argument.
    fn first_type(&self, shape: &Shape) -> TypeId
        ensures { (ks : List Sort) (k : Sort) → HaveSorts self.now (args_of shape.now) ks → slice_get ks 0 ≡ Some k → KeepsType self.now result k }
    {
        match self.argument_type(shape, 0) {
            Some(of) => of,
            None => self.bool_type(),
        }
    }

    /// The type of what an operator with numbers gives.
    fn given_by_numbers(&self, op: BvAtOp, first: u32, second: u32, of: Term) -> TypeId
        ensures { (n : ℕ) (k : Sort) → HasSort self.now of (bit_vector n) → typed_at op first second n ≡ Some k → KeepsType self.now result k }
    {
        self.is_table();
        match op {
            BvAtOp::ShiftLeft0 | BvAtOp::ShiftRight0 => self.type_or_bool(of),
            BvAtOp::Extract if second <= first => self.vector(u128::from(first - second) + 1),
            BvAtOp::Extract => self.bool_type(),
            BvAtOp::SignExtend | BvAtOp::ZeroExtend => {
                self.vector(u128::from(self.width_of_term(of)) + u128::from(first))
            }
        }
    }
}
