//! Which shapes are those of terms.
//!
//! A shape is one of a term where its arguments are live and its operator takes their sorts. What is wrong first is told:
//! an atom, a dead argument, the number of arguments, a type, a width, a number. Each step goes through the arguments in
//! order, and stops at the first that it has to name; so what it answers is the first misfit of the operator at the sorts
//! that the arguments' types stand for, and where there is none the operator has a sort there.
ghost use Rattle.std.specs.Prelude.{◌≡◌, ◌<◌, ℕ, List, Some, None, IfOk, IfErr, IfSome, IfNone, true, false, length};
ghost use Rattle.y_tree.specs.Sorts.{Sort};
ghost use Rattle.y_tree.specs.Misfits.{row_of, count_fits, a_bit_vector, first_width, all_widths, out_in};
ghost use Rattle.y_tree.specs.Misfits as misfit;
ghost use Rattle.y_tree.specs.Laws.{wanted_behind, AreWanted, IsFirstOther, is_even};
ghost use Rattle.term_shapes.specs.Shapes.{args_of};
ghost use Rattle.shape_rules.specs.Rules.{operator};
ghost use Rattle.term_table.specs.Checking.{HaveSorts, AreLive, IsFirstDead, IsTold, IsDeadAt, ToldAt, AllFit, AllWide, AllVectors, ToldBy, RefusesShape, IsShape};

use crate::table::Table;
use shape_rules::{
    ShapeError, bits_refusal, form_of, is_atom, is_even, joined_refusal, numbers_refusal,
};
use term_shapes::{Shape, TypeId};
use y_tree::laws::misfits;

impl Table {
    /// The type of the term that has that shape. It takes no memory, and time linear in the arguments.
    ///
    /// # Errors
    ///
    /// In this order: `Atom` for constants and variables, `DeadTerm`, `BadArity`, `WrongType`, `WidthsDiffer`, and then
    /// `BadWidth` or `BadRange`. Places are counted from 1, and the least is told.
    pub fn check_shape(&self, shape: &Shape) -> Result<TypeId, ShapeError>
        ensures ok { IfOk result (λ of. IsShape self.now shape.now of) }
        ensures err { IfErr result (λ e. RefusesShape self.now shape.now e) }
    {
        misfits();
        self.is_table();
        if is_atom(shape) {
            return Err(ShapeError::Atom);
        }
        if let Some(place) = self.first_dead(shape) {
            return Err(ShapeError::DeadTerm(place));
        }
        if !self.count_fits(shape) {
            return Err(ShapeError::BadArity(shape.count_arguments()));
        }
        if let Some(e) = self.wrong_type(shape) {
            return Err(e);
        }
        if let Some(e) = self.uneven_width(shape) {
            return Err(e);
        }
        if let Some(e) = self.own_refusal(shape) {
            return Err(e);
        }
        Ok(self.given(shape))
    }

    /// The place of the first dead argument.
    #[tactic(auto, using(crate::proofs::Misfitting::first_dead_is, crate::proofs::Misfitting::live_step, crate::proofs::Misfitting::live_all))]
    fn first_dead(&self, shape: &Shape) -> Option<usize>
        ensures dead { IfSome result (λ place. IsFirstDead self.now (args_of shape.now) place) }
        ensures live { IfNone result (AreLive self.now (args_of shape.now)) }
    {
        for place in 0..shape.count_arguments() {
            if self.is_dead_at(shape, place) {
                return Some(place + 1);
            }
        }
        None
    }

    /// Whether the argument at that place is dead.
    fn is_dead_at(&self, shape: &Shape, place: usize) -> bool
        ensures { IsDeadAt self.now (args_of shape.now) place result }
    {
        match shape.argument(place) {
            Some(t) => !self.is_live(t),
            None => false,
        }
    }

    /// The refusal for the first argument that has another type than is wanted in its place.
    #[tactic(auto, using(crate::proofs::Misfitting::told_wrong, crate::proofs::Misfitting::fit_step, crate::proofs::Misfitting::fit_all))]
    fn wrong_type(&self, shape: &Shape) -> Option<ShapeError>
        ensures some { IfSome result (λ e. (ks : List Sort) → HaveSorts self.now (args_of shape.now) ks → count_fits (row_of (operator shape.now) ks) (length ks) ≡ true → IsTold self.now shape.now ks e) }
        ensures none { IfNone result ((ks : List Sort) → HaveSorts self.now (args_of shape.now) ks → AllFit (row_of (operator shape.now) ks) ks) }
    {
        for place in 0..shape.count_arguments() {
            if let Some(e) = self.wrong_type_at(shape, place) {
                return Some(e);
            }
        }
        None
    }

    /// The refusal for the argument at that place, where it has another type than is wanted there.
    fn wrong_type_at(&self, shape: &Shape, place: usize) -> Option<ShapeError>
        requires { place < usize.MAX }
        ensures { (ks : List Sort) → HaveSorts self.now (args_of shape.now) ks → ToldAt self.now (row_of (operator shape.now) ks) ks place result }
    {
        let found = self.argument_type(shape, place)?;
        let wanted = self.wanted(shape, place)?;
        if self.fits(wanted, found) {
            return None;
        }
        Some(ShapeError::WrongType {
            place: place + 1,
            wanted,
            found,
        })
    }

    /// The refusal for the first bit-vector of another width than the first, where all are to have one.
    #[tactic(auto, using(crate::proofs::Misfitting::all_vectors))]
    fn uneven_width(&self, shape: &Shape) -> Option<ShapeError>
        ensures some { IfSome result (λ e. (ks : List Sort) → HaveSorts self.now (args_of shape.now) ks → AreWanted (row_of (operator shape.now) ks) ks → IsTold self.now shape.now ks e) }
        ensures none { IfNone result ((ks : List Sort) → HaveSorts self.now (args_of shape.now) ks → is_even (row_of (operator shape.now) ks) ≡ true → AllWide (first_width ks) ks) }
    {
        if !is_even(shape) {
            return None;
        }
        let (place, left, right) = self.other_width(shape)?;
        Some(ShapeError::WidthsDiffer {
            place: place + 1,
            left,
            right,
        })
    }

    /// The place of the first bit-vector of another width than the first, with both widths.
    fn other_width(&self, shape: &Shape) -> Option<(usize, u32, u32)>
        ensures some { IfSome result (λ r. (ks : List Sort) → HaveSorts self.now (args_of shape.now) ks → AllVectors ks → (r.1 ≡ first_width ks) × IsFirstOther ks r.0 r.1 r.2) }
        ensures none { IfNone result ((ks : List Sort) → HaveSorts self.now (args_of shape.now) ks → AllWide (first_width ks) ks) }
        ensures place { IfSome result (λ r. r.0 < usize.MAX) }
    {
        let left = self.width_at(shape, 0);
        for place in 0..shape.count_arguments() {
            let right = self.width_at(shape, place);
            if right != left {
                return Some((place, left, right));
            }
        }
        None
    }

    /// The refusal for the shape's numbers and for the width of what it gives.
    #[tactic(auto, using(crate::proofs::Misfitting::number_told))]
    fn own_refusal(&self, shape: &Shape) -> Option<ShapeError>
        ensures { (ks : List Sort) → HaveSorts self.now (args_of shape.now) ks → ToldBy self.now (out_in (operator shape.now) ks) result }
    {
        match shape {
            Shape::Bits { width, bits } => bits_refusal(*width, *bits),
            Shape::Bv(op, _) => joined_refusal(form_of(*op), self.all_widths(shape)),
            Shape::BvAt(op, first, second, _) => {
                numbers_refusal(*op, *first, *second, self.width_at(shape, 0))
            }
            _ => None,
        }
    }

    /// The widths of all arguments together.
    #[tactic(auto, using(crate::proofs::Misfitting::widths_step, crate::proofs::Misfitting::widths_all))]
    pub(crate) fn all_widths(&self, shape: &Shape) -> u128
        ensures { (ks : List Sort) → HaveSorts self.now (args_of shape.now) ks → result ≡ all_widths ks }
    {
        let mut sum = 0;
        for place in 0..shape.count_arguments() {
            sum += u128::from(self.width_at(shape, place));
        }
        sum
    }
}
