//! Which types the arguments of a shape are to have, and how many there are to be.
//!
//! Each shape has the row of its operator. What the row wants in a place is read off the shape and, where the first
//! argument fixes it, off that argument's type; so a check goes through the places once and keeps no list.
ghost use Rattle.std.specs.Prelude.{◌≡◌, ℕ, ◌<◌, ◌∷◌, Bool, List, Option, Some, None, length, slice_get};
ghost use Rattle.std.specs.Option.{option_copied};
ghost use Rattle.y_tree.specs.Sorts.{Sort};
ghost use Rattle.y_tree.specs.Misfits.{fits, row_of, function_row, alike, count_fits, of_sort, width};
ghost use Rattle.y_tree.specs.Misfits as misfit;
ghost use Rattle.y_tree.specs.Laws.{wanted_behind};
ghost use Rattle.y_tree.specs.Tree.{choice, equality};
ghost use Rattle.term_shapes.specs.declared.handles.TypeId.{TypeId};
ghost use Rattle.term_shapes.specs.Shapes.{args_of};
ghost use Rattle.term_table.specs.World.{KeepsType, HasType, type_shape_at};
ghost use Rattle.shape_rules.specs.Rules.{operator, is_kind, shape_width, shape_takes, wanted_by};
ghost use Rattle.term_table.specs.Checking.{HasSort, HaveSorts, IsKept, Wants, WantsHere, IsKind, takes_number};

use crate::table::Table;
use shape_rules::{Form, Wanted, form_of, is_kind, shape_takes, shape_width, wanted_by};
use term_shapes::{Shape, Term, TypeId, TypeShape};

impl Table {
    /// The type of the argument at that place.
    #[tactic(auto, using(crate::proofs::Sorting::kept_some, crate::proofs::Sorting::kept_none))]
    pub(crate) fn argument_type(&self, shape: &Shape, place: usize) -> Option<TypeId>
        ensures { (ks : List Sort) (k : Sort) → HaveSorts self.now (args_of shape.now) ks → slice_get ks place ≡ Some k → IsKept self.now result k }
    {
        match shape.argument(place) {
            Some(t) => self.type_of(t),
            None => None,
        }
    }

    /// The width of the argument at that place, where it is a bit-vector; else 0.
    pub(crate) fn width_at(&self, shape: &Shape, place: usize) -> u32
        ensures { (ks : List Sort) (k : Sort) → HaveSorts self.now (args_of shape.now) ks → slice_get ks place ≡ Some k → result ≡ width k }
    {
        match self.argument_type(shape, place) {
            Some(of) => self.width_of(of),
            None => 0,
        }
    }

    /// The width of a term, where it is a bit-vector; else 0.
    pub(crate) fn width_of_term(&self, t: Term) -> u32
        ensures { (k : Sort) → HasSort self.now t k → result ≡ width k }
    {
        match self.type_of(t) {
            Some(of) => self.width_of(of),
            None => 0,
        }
    }

    /// The width of a type, where it is one of bit-vectors; else 0.
    #[tactic(auto, using(crate::proofs::Rows::width_some, crate::proofs::Rows::width_none))]
    fn width_of(&self, of: TypeId) -> u32
        ensures { (k : Sort) → KeepsType self.now of k → result ≡ width k }
    {
        match self.type_shape(of) {
            Some(shape) => shape_width(shape),
            None => 0,
        }
    }

    /// Whether a type is what is wanted.
    pub(crate) fn fits(&self, wanted: Wanted, found: TypeId) -> bool
        ensures { (v : misfit.Wanted) (k : Sort) → Wants self.now wanted v → KeepsType self.now found k → result ≡ fits v k }
    {
        self.is_table();
        match wanted {
            Wanted::Same(of) => of == found,
            Wanted::Bool | Wanted::Real | Wanted::AnyBv | Wanted::AnyFun => {
                self.is_of_kind(wanted, found)
            }
        }
    }

    /// Whether a type is of the kind that is wanted.
    #[tactic(auto, using(crate::proofs::Rows::kind_fits, crate::proofs::Rows::no_kind))]
    fn is_of_kind(&self, wanted: Wanted, found: TypeId) -> bool
        ensures { (v : misfit.Wanted) (k : Sort) → IsKind wanted → Wants self.now wanted v → KeepsType self.now found k → result ≡ fits v k }
    {
        match self.type_shape(found) {
            Some(shape) => is_kind(wanted, shape),
            None => false,
        }
    }

    /// What the argument at that place is to have; `None` where any type will do.
    #[tactic(auto, using(crate::proofs::Rows::choice_wants, crate::proofs::Rows::equality_wants, crate::proofs::Rows::function_row_wants, crate::proofs::Rows::one_of_many, shape_rules::proofs::Vectors::wants_vectors, shape_rules::proofs::Vectors::only_one))]
    pub(crate) fn wanted(&self, shape: &Shape, place: usize) -> Option<Wanted>
        ensures { (ks : List Sort) (v : misfit.Wanted) → HaveSorts self.now (args_of shape.now) ks → wanted_behind (row_of (operator shape.now) ks) place ≡ Some v → WantsHere self.now result v }
    {
        match shape {
            Shape::Not(_) | Shape::And(_) | Shape::Or(_) | Shape::Xor(_) => Some(Wanted::Bool),
            Shape::Sum(_, _) | Shape::NonNeg(_) => Some(Wanted::Real),
            Shape::Bv(_, _) | Shape::BvAt(_, _, _, _) => Some(Wanted::AnyBv),
            Shape::Ite(_, yes, _) => self.wanted_in_choice(*yes, place),
            Shape::Eq(left, _) => self.wanted_in_equality(*left, place),
            Shape::Distinct(_) => self.wanted_alike(shape),
            Shape::App(function, _) => self.wanted_by_function(*function, place),
            Shape::Update(function, _, _) => self.wanted_by_function(*function, place),
            _ => None,
        }
    }

    /// The type of a term, as what is wanted.
    fn same_as(&self, t: Term) -> Option<Wanted>
        ensures { (k : Sort) → HasSort self.now t k → WantsHere self.now result (of_sort k) }
    {
        match self.type_of(t) {
            Some(of) => Some(Wanted::Same(of)),
            None => None,
        }
    }

    /// What a choice wants: a truth value, and then twice the type of the first branch.
    fn wanted_in_choice(&self, yes: Term, place: usize) -> Option<Wanted>
        ensures { (c k : Sort) (ks : List Sort) (v : misfit.Wanted) → HasSort self.now yes k → wanted_behind (row_of choice (c ∷ k ∷ ks)) place ≡ Some v → WantsHere self.now result v }
    {
        match place {
            0 => Some(Wanted::Bool),
            1 => None,
            _ => self.same_as(yes),
        }
    }

    /// What an equality wants: twice the type of the first argument.
    fn wanted_in_equality(&self, left: Term, place: usize) -> Option<Wanted>
        ensures { (k : Sort) (ks : List Sort) (v : misfit.Wanted) → HasSort self.now left k → wanted_behind (row_of equality (k ∷ ks)) place ≡ Some v → WantsHere self.now result v }
    {
        match place {
            0 => None,
            _ => self.same_as(left),
        }
    }

    /// The type of the first argument, as what is wanted.
    #[tactic(auto, using(crate::proofs::Sorting::alike_some, crate::proofs::Sorting::alike_none))]
    fn wanted_alike(&self, shape: &Shape) -> Option<Wanted>
        ensures { (ks : List Sort) → HaveSorts self.now (args_of shape.now) ks → WantsHere self.now result (alike ks) }
    {
        match shape.argument(0) {
            Some(first) => self.same_as(first),
            None => None,
        }
    }

    /// What a function wants: itself, its arguments, and behind them a value of its result.
    #[tactic(auto, using(crate::proofs::Rows::function_first, crate::proofs::Rows::function_wants, crate::proofs::Rows::no_shape_of))]
    fn wanted_by_function(&self, head: Term, place: usize) -> Option<Wanted>
        ensures { (b : Bool) (k : Sort) (ks : List Sort) (v : misfit.Wanted) → HasSort self.now head k → wanted_behind (function_row b (k ∷ ks)) place ≡ Some v → WantsHere self.now result v }
    {
        if place == 0 {
            return Some(Wanted::AnyFun);
        }
        match self.shape_of_type(head) {
            Some(shape) => Some(wanted_by(shape, place - 1)),
            None => None,
        }
    }

    /// The shape of the type of a term.
    pub(crate) fn shape_of_type(&self, t: Term) -> Option<&TypeShape>
        ensures { (of : TypeId) → HasType self.now t of → option_copied result ≡ type_shape_at self.now of }
    {
        match self.type_of(t) {
            Some(of) => self.type_shape(of),
            None => None,
        }
    }

    /// Whether the shape has as many arguments as its operator takes.
    pub(crate) fn count_fits(&self, shape: &Shape) -> bool
        ensures { (ks : List Sort) → HaveSorts self.now (args_of shape.now) ks → result ≡ count_fits (row_of (operator shape.now) ks) (length ks) }
    {
        match shape {
            Shape::And(all) | Shape::Or(all) | Shape::Xor(all) | Shape::Distinct(all) => {
                all.len() >= 1
            }
            Shape::App(function, all) => self.takes(*function, all.len()),
            Shape::Update(function, all, _) => self.takes(*function, all.len()),
            Shape::Bv(op, all) => match form_of(*op) {
                Form::One => all.len() == 1,
                Form::Two | Form::Test => all.len() == 2,
                Form::Some | Form::Joined => all.len() >= 1,
            },
            _ => true,
        }
    }

    /// Whether a function takes so many arguments; true where the term is none.
    #[tactic(auto, using(crate::proofs::Rows::takes_some, crate::proofs::Rows::no_shape_of))]
    fn takes(&self, head: Term, number: usize) -> bool
        ensures { (k : Sort) → HasSort self.now head k → result ≡ takes_number k number }
    {
        match self.shape_of_type(head) {
            Some(shape) => shape_takes(shape, number),
            None => true,
        }
    }
}
