//! Values that only contracts see: they take no memory, and nothing runs for them.
//!
//! A struct keeps what its contract speaks of, but its code has no use for, in a field of type
//! `Erased`. Such a field says something only where an invariant or a clause ties it to real fields.
#![tactic(auto)]

ghost use Rattle.std.specs.Prelude.{◌≡◌};
ghost use Rattle.std.specs.Borrow.{ftrue};

use std::marker::{Model, PhantomData};

/// A value for contracts alone. A clause reads it as `value`.
pub struct Erased<T> {
    of: PhantomData<T>,
    pub ghost value: { T },
}

impl<T> Model for Erased<T> {
    ghost also_owns = { λ _. ftrue };
}

/// How a value for contracts is made from what the code has at that moment.
pub trait Makes {
    type From;

    type With;

    type Of;

    ghost make: { Self.From → Self.With → Self.Of };
}

impl<T> Drop for Erased<T> {
    fn drop(self) {
        let Erased { of: _ } = self;
    }
}

/// The value that `F` makes of the two arguments. Costs nothing.
pub fn made<F: Makes>(from: &F::From, with: &F::With) -> Erased<F::Of>
    ensures { result.value ≡ F.make from.now with.now }
{
    let _ = from;
    let _ = with;
    Erased { of: PhantomData }
}
