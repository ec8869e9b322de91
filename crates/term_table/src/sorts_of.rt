//! Types as plain data, without handles.
//!
//! A type that is none of functions is read off its shape. The parts of a function type are none of functions, so each is
//! read off its own shape, and no walk goes deeper.
ghost use Rattle.std.specs.Prelude.{◌≡◌, IfOk, true, List, Option, Some, None};
ghost use Rattle.y_tree.specs.Sorts.{Sorts, function, is_simple, are_simple};
ghost use Rattle.y_tree.specs.Sorts as sort;
ghost use Rattle.y_tree.specs.Plain.{plain_sort, plain_sorts};
ghost use Rattle.term_table.specs.World.{KeepsType, KeepsTypes};
ghost use Rattle.shape_rules.specs.Rules.{simple_of};
ghost use Rattle.term_table.specs.Functions.{StandsFor};

use crate::table::Table;
use shape_rules::simple_sort;
use sqlite_items::Boxed;
use std::alloc::{AllocError, Global};
use term_shapes::{TypeId, TypeShape};
use y_tree::{Sort, Sorts};

impl Table {
    /// The sort that a live type stands for; `None` where the type is dead. It takes time linear in the arguments of a
    /// function type.
    ///
    /// # Errors
    ///
    /// Where memory is refused.
    pub fn sort_of(&self, alloc: Global, t: TypeId) -> Result<Option<Sort>, AllocError>
        ensures { IfOk result (λ s. StandsFor self.now t s) }
    {
        self.is_table();
        let Some(shape) = self.type_shape(t) else {
            return Ok(None);
        };
        match shape {
            TypeShape::Fun(domain, value) => {
                Ok(Some(self.function_sort(alloc, domain.as_slice(), *value)?))
            }
            _ => Ok(Some(simple_sort(shape))),
        }
    }

    /// The sort of functions from what these types stand for, which are no functions.
    fn function_sort(
        &self,
        alloc: Global,
        domain: &[TypeId],
        value: TypeId,
    ) -> Result<Sort, AllocError>
        ensures { IfOk result (λ s. (d : Sorts) (k : sort.Sort) → KeepsTypes self.now domain.now d → KeepsType self.now value k → are_simple d ≡ true → is_simple k ≡ true → plain_sort s ≡ function d k) }
    {
        let mut sorts = Sorts::new(alloc);
        for of in domain {
            sorts.push(self.part_sort(*of))?;
        }
        let value = Boxed::new(alloc, self.part_sort(value))?;
        Ok(Sort::Fun(sorts, value))
    }

    /// The sort of a type that is none of functions.
    fn part_sort(&self, of: TypeId) -> Sort
        ensures { (k : sort.Sort) → KeepsType self.now of k → is_simple k ≡ true → plain_sort result ≡ k }
    {
        match self.type_shape(of) {
            Some(shape) => simple_sort(shape),
            None => Sort::Bool,
        }
    }
}
