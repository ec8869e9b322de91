//! Shapes: a type or a term with handles for its parts.
ghost use Rattle.std.specs.Prelude.{◌≡◌, ◌++◌, ◌∷◌, [], length, slice_get, map};
ghost use Rattle.std.specs.Bool.{Decides};
ghost use Rattle.term_shapes.specs.Shapes.{args_of, types_of, parts_of};
ghost use Rattle.term_shapes.specs.declared.shapes.Node.{Node};
ghost use Rattle.term_shapes.specs.declared.shapes.TypeShape.{TypeShape};

use crate::handles::{Term, TypeId};
use crate::lists::{Args, Monomial, Monomials, TypeIds};
use fraction128::Frac;
use y_tree::{BvAtOp, BvOp};

/// A type with handles for its parts.
#[derive(PartialEq, Eq, Hash, Drop)]
pub enum TypeShape {
    /// The truth values.
    Bool,
    /// The real numbers.
    Real,
    /// The bit-vectors of that width.
    Bv(u32),
    /// The uninterpreted type of that number.
    Free(u64),
    /// The functions from these types to that one.
    Fun(TypeIds, TypeId),
}

/// A term with handles for its arguments.
#[derive(PartialEq, Eq, Hash, Drop)]
pub enum Shape {
    /// True.
    True,
    /// False.
    False,
    /// The constant of that number, with its type.
    Const { number: u64, of: TypeId },
    /// The variable of that number, with its type.
    Var { number: u64, of: TypeId },
    /// A number.
    Number(Frac),
    /// A bit-vector of that width.
    Bits { width: u32, bits: u128 },
    /// The negation.
    Not(Term),
    /// All are true.
    And(Args),
    /// Some are true.
    Or(Args),
    /// An odd number of them is true.
    Xor(Args),
    /// The second or the third.
    Ite(Term, Term, Term),
    /// Equal.
    Eq(Term, Term),
    /// Pairwise different.
    Distinct(Args),
    /// The function at the arguments.
    App(Term, Args),
    /// The function, changed at the arguments to the value.
    Update(Term, Args, Term),
    /// The sum of the terms with their factors, and of the number.
    Sum(Monomials, Frac),
    /// At least 0.
    NonNeg(Term),
    /// An operator on bit-vectors.
    Bv(BvOp, Args),
    /// An operator on one bit-vector with numbers.
    BvAt(BvAtOp, u32, u32, Term),
}

impl TypeShape {
    /// How many types the type is made of, in constant time.
    pub fn count_parts(&self) -> usize
        ensures { result ≡ length (parts_of self.now) }
    {
        match self {
            TypeShape::Fun(domain, _) => domain.as_slice().len() + 1,
            _ => 0,
        }
    }

    /// The type at that place, from 0 on, of those that the type is made of: the arguments of a function, and its result
    /// behind them. The time is constant.
    pub fn part(&self, place: usize) -> Option<TypeId>
        ensures { result ≡ slice_get (parts_of self.now) place }
    {
        match self {
            TypeShape::Fun(domain, result_type) => part_of(domain.as_slice(), *result_type, place),
            _ => None,
        }
    }
}

/// The type at that place, with the last one behind the others.
fn part_of(domain: &[TypeId], result_type: TypeId, place: usize) -> Option<TypeId>
    ensures { result ≡ slice_get (domain.now ++ result_type ∷ []) place }
{
    if place == domain.len() {
        return Some(result_type);
    }
    domain.get(place).copied()
}

impl Shape {
    /// How many arguments there are, in constant time.
    pub fn count_arguments(&self) -> usize
        ensures { result ≡ length (args_of self.now) }
    {
        match self {
            Shape::True | Shape::False | Shape::Number(_) => 0,
            Shape::Const { .. } | Shape::Var { .. } | Shape::Bits { .. } => 0,
            Shape::Not(_) | Shape::NonNeg(_) | Shape::BvAt(_, _, _, _) => 1,
            Shape::Eq(_, _) => 2,
            Shape::Ite(_, _, _) => 3,
            Shape::And(all) | Shape::Or(all) | Shape::Xor(all) => all.len(),
            Shape::Distinct(all) | Shape::Bv(_, all) => all.len(),
            Shape::App(_, all) => all.as_slice().len() + 1,
            Shape::Update(_, all, _) => all.as_slice().len() + 2,
            Shape::Sum(monomials, _) => monomials.len(),
        }
    }

    /// The argument at that place, from 0 on; `None` behind the last. The time is constant.
    pub fn argument(&self, place: usize) -> Option<Term>
        ensures { result ≡ slice_get (args_of self.now) place }
    {
        match self {
            Shape::True | Shape::False | Shape::Number(_) => None,
            Shape::Const { .. } | Shape::Var { .. } | Shape::Bits { .. } => None,
            Shape::Not(only) | Shape::NonNeg(only) | Shape::BvAt(_, _, _, only) => {
                [*only].get(place).copied()
            }
            Shape::Eq(left, right) => [*left, *right].get(place).copied(),
            Shape::Ite(test, yes, no) => [*test, *yes, *no].get(place).copied(),
            Shape::And(all) | Shape::Or(all) | Shape::Xor(all) => all
                .as_slice()
                .get(place)
                .copied(),
            Shape::Distinct(all) | Shape::Bv(_, all) => all.as_slice().get(place).copied(),
            Shape::App(function, all) => behind(*function, all.as_slice(), place),
            Shape::Update(function, all, value) => {
                between(*function, all.as_slice(), *value, place)
            }
            Shape::Sum(monomials, _) => term_at(monomials.as_slice(), place),
        }
    }

    /// The type that a constant or a variable names.
    pub fn named_type(&self) -> Option<TypeId>
        ensures { result ≡ slice_get (types_of self.now) 0 }
    {
        match self {
            Shape::Const { of, .. } | Shape::Var { of, .. } => Some(*of),
            _ => None,
        }
    }
}

/// The term at that place, with the others behind the first.
fn behind(first: Term, others: &[Term], place: usize) -> Option<Term>
    ensures { result ≡ slice_get (first ∷ others.now) place }
{
    if place == 0 {
        return Some(first);
    }
    others.get(place - 1).copied()
}

/// The term at that place, with the others between the first and the last.
fn between(first: Term, others: &[Term], last: Term, place: usize) -> Option<Term>
    ensures { result ≡ slice_get (first ∷ (others.now ++ last ∷ [])) place }
{
    if place == others.len() + 1 {
        return Some(last);
    }
    behind(first, others, place)
}

/// The term of the monomial at that place.
fn term_at(monomials: &[Monomial], place: usize) -> Option<Term>
    ensures { result ≡ slice_get (map (λ m. m.of) monomials.now) place }
{
    match monomials.get(place) {
        Some(monomial) => Some(monomial.of),
        None => None,
    }
}

/// A shape with the type of its term. Nodes are compared and hashed by their shapes.
#[derive(Drop)]
#[derive_where(PartialEq, Eq, Hash)]
pub struct Node {
    /// The shape.
    pub shape: Shape,
    /// The type.
    #[derive_where(skip)]
    pub of: TypeId,
}

/// Nodes compare equal exactly where they have one shape.
#[tactic(auto, using(crate::proofs::Same::node_decides))]
pub fn node_equality()
    ensures { (a b : Node) → Decides (⟦<Node as PartialEq>⟧.eq a b) (a.shape ≡ b.shape) }
{}

/// Shapes of types compare equal exactly where they are one.
#[tactic(auto, using(crate::proofs::Same::type_shape_decides))]
pub fn type_equality()
    ensures { (a b : TypeShape) → Decides (⟦<TypeShape as PartialEq>⟧.eq a b) (a ≡ b) }
{}
