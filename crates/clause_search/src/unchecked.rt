//! A checker that stands for no clause.

ghost use Rattle.std.specs.Prelude.{◌≡◌, Option, Some, None};

use crate::{Checker, Look};
use clause_logic::lists::Assignment;
use y_erased::{Erased, Makes, made};

/// What `look` notes, for contracts alone.
struct Noted;

impl Makes for Noted {
    type From = Assignment;

    type With = Look<u8>;

    type Of = Option<(Assignment, Look<u8>)>;

    ghost make = { λ shown answer. Some (shown, answer) };
}

/// What `begin` notes.
struct Begun;

impl Makes for Begun {
    type From = ();

    type With = ();

    type Of = Option<(Assignment, Look<u8>)>;

    ghost make = { λ _ _. None };
}

/// A checker that stands for no clause: each assignment fits.
#[derive(Drop)]
pub struct Unchecked {
    newest: Erased<Option<(Assignment, Look<u8>)>>,
}

impl Unchecked {
    /// A checker that has looked at nothing.
    pub fn new() -> Unchecked
        ensures { ⟦<Unchecked as Checker>⟧.newest result ≡ None }
    {
        Unchecked {
            newest: made::<Begun>(&(), &()),
        }
    }
}

impl Checker for Unchecked {
    type Stop = u8;

    ghost stands = { λ s c. ⊥ };

    ghost newest = { λ s. s.newest.value };

    fn begin(&mut self) {
        self.newest = made::<Begun>(&(), &());
    }

    fn look(&mut self, shown: &Assignment) -> Look<u8> {
        let answer = Look::Fits;
        self.newest = made::<Noted>(shown, &answer);
        answer
    }
}
