//! Function types, and types as plain data.
//!
//! A function type is looked for before it gets a slot, like a term. Its parts are live and no functions, so the sort that
//! it stands for is within the limits, and is read off its parts without a walk.
ghost use Rattle.std.specs.Prelude.{◌≡◌, ◌++◌, ◌∷◌, [], IfOk, IfErr, IfSome, IfNone, OnErr, true, false, slice_get};
ghost use Rattle.shape_rules.specs.Rules.{is_function, is_arity};
ghost use Rattle.term_table.specs.Functions.{IsFirstWith, NoneHas, HasAt, IsDeadType, IsFunctionType, RefusesFunction, AddsFunction};

use crate::table::Table;
use shape_rules::{TableError, function_shape, is_arity, is_function, part};
use term_shapes::{TypeId, TypeShape};

impl Table {
    /// The type of functions from these types to that one: the live type, or a new one. It takes time linear in the
    /// arguments.
    ///
    /// # Errors
    ///
    /// In this order: `BadArity` where there are none or more than 16 arguments, `DeadType` and `HigherOrder` with the least
    /// place, where the result counts last, and `TableFull` or `NoMemory`. Then nothing changes.
    pub fn function_type(
        &mut self,
        arguments: &[TypeId],
        value: TypeId,
    ) -> Result<TypeId, TableError>
        ensures added { IfOk result (λ t. AddsFunction self.old self.new t (TypeShape.Fun arguments.now value)) }
        ensures refused { IfErr result (λ e. RefusesFunction self.old arguments.now value e) }
        ensures same { OnErr result (self.new ≡ self.old) }
    {
        self.is_table();
        if !is_arity(arguments.len()) {
            return Err(TableError::BadArity(arguments.len()));
        }
        if let Some(place) = self.first_dead_type(arguments, value) {
            return Err(TableError::DeadType(place));
        }
        if let Some(place) = self.first_function(arguments, value) {
            return Err(TableError::HigherOrder(place));
        }
        let shape = function_shape(self.allocator(), arguments, value)?;
        self.add_type(shape)
    }

    /// The place of the first dead one of these types.
    fn first_dead_type(&self, arguments: &[TypeId], value: TypeId) -> Option<usize>
        ensures some { IfSome result (λ place. IsFirstWith (IsDeadType self.now) (arguments.now ++ value ∷ []) place) }
        ensures none { IfNone result (NoneHas (IsDeadType self.now) (arguments.now ++ value ∷ [])) }
    {
        for place in 0..arguments.len() + 1 {
            if self.is_dead_part(arguments, value, place) {
                return Some(place + 1);
            }
        }
        None
    }

    /// Whether the type at that place is dead.
    fn is_dead_part(&self, arguments: &[TypeId], value: TypeId, place: usize) -> bool
        ensures { HasAt (IsDeadType self.now) (arguments.now ++ value ∷ []) place result }
    {
        match part(arguments, value, place) {
            Some(of) => !self.is_live_type(of),
            None => false,
        }
    }

    /// The place of the first of these types that is one of functions.
    fn first_function(&self, arguments: &[TypeId], value: TypeId) -> Option<usize>
        ensures some { IfSome result (λ place. IsFirstWith (IsFunctionType self.now) (arguments.now ++ value ∷ []) place) }
        ensures none { IfNone result (NoneHas (IsFunctionType self.now) (arguments.now ++ value ∷ [])) }
    {
        for place in 0..arguments.len() + 1 {
            if self.is_function_part(arguments, value, place) {
                return Some(place + 1);
            }
        }
        None
    }

    /// Whether the type at that place is one of functions.
    fn is_function_part(&self, arguments: &[TypeId], value: TypeId, place: usize) -> bool
        ensures { HasAt (IsFunctionType self.now) (arguments.now ++ value ∷ []) place result }
    {
        match part(arguments, value, place) {
            Some(of) => self.is_function(of),
            None => false,
        }
    }

    /// Whether a type is one of functions.
    fn is_function(&self, of: TypeId) -> bool
        ensures yes { result ≡ true → IsFunctionType self.now of }
        ensures no_ { result ≡ false → IsFunctionType self.now of → ⊥ }
    {
        match self.type_shape(of) {
            Some(shape) => is_function(shape),
            None => false,
        }
    }
}
