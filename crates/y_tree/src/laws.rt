//! Laws of the definitions: each function's contract is one, and its body is empty.
ghost use Rattle.y_tree.specs.Laws.{SameSortIsEqual, TreeHasASort, MeaningHasItsSort, ZeroHasItsSort, ZeroIsFormed, ConstantHasItsSort, SimpleValuesAreEqual, SameValueIsEquivalence, FunctionsAreFlat, SameFunctionsAgree, AgreeingFunctionsAreSame, OtherFunctionsDiffer, UpdatesAreSame, OperatorsAreCongruent, MeaningsAreCongruent, OrderIsTotal, KeyOrderIsTotal, RisingKeysDiffer, PutChangesOneKey, FitsAreTyped, ToldIsMisfit};

/// Types that the test finds one are one.
pub fn sorts_are_decided()
    ensures { SameSortIsEqual }
{}

/// A well-typed tree has a type within the limits, and under every assignment a value of it.
pub fn trees_have_sorts()
    ensures sort { TreeHasASort }
    ensures meaning { MeaningHasItsSort }
{}

/// The zero of a type and the value of a constant are values of their types.
pub fn constants_have_sorts()
    ensures zero { ZeroHasItsSort }
    ensures formed { ZeroIsFormed }
    ensures constant { ConstantHasItsSort }
{}

/// To be one is an equivalence on the values of a type, and equality where these are no functions.
pub fn sameness()
    ensures equivalence { SameValueIsEquivalence }
    ensures simple { SimpleValuesAreEqual }
{}

/// Two functions are one exactly where they agree at each tuple of their domain.
pub fn functions()
    ensures flat { FunctionsAreFlat }
    ensures agree { SameFunctionsAgree }
    ensures alike { AgreeingFunctionsAreSame }
    ensures differ { OtherFunctionsDiffer }
    ensures update { UpdatesAreSame }
{}

/// The orders of values and of keys are total, and equal by them is equal.
pub fn orders()
    ensures values { OrderIsTotal }
    ensures keys { KeyOrderIsTotal }
    ensures rising { RisingKeysDiffer }
{}

/// To put a value at a key changes a function there alone.
pub fn putting()
    ensures { PutChangesOneKey }
{}

/// Operators on values that are one, and trees under assignments that are one, give values that are one.
pub fn congruence()
    ensures operators { OperatorsAreCongruent }
    ensures meanings { MeaningsAreCongruent }
{}

/// Nothing is told of arguments exactly where the operator at these has a type, and else exactly the first misfit.
pub fn misfits()
    ensures typed { FitsAreTyped }
    ensures told { ToldIsMisfit }
{}
