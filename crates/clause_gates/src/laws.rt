//! The laws of circuits: those put together are a circuit, what they compute stays, and the gates say
//! all that the clauses do.

ghost use Rattle.clause_gates.specs.Laws.{GrowthComposes, GrowthIsLater, ModelsStay, BitsStay, UnitIsTrue, GatesHold, GatesSuffice, MajorityIsNamed};

/// Two growths, one after the other, are one, and a growth keeps what was there.
pub fn growth_composes()
    ensures composes { GrowthComposes }
    ensures later { GrowthIsLater }
{}

/// What was true in all assignments stays so, where variables and clauses come in.
pub fn facts_stay()
    ensures models { ModelsStay }
    ensures bits { BitsStay }
{}

/// A literal that a clause by itself makes true is one that circuits may share.
pub fn unit_is_true()
    ensures { UnitIsTrue }
{}

/// The clauses of a circuit say just that its gates hold, and the clauses that the caller gave.
pub fn gates_tell()
    ensures hold { GatesHold }
    ensures suffice { GatesSuffice }
{}

/// A majority has no operator of its own among those of terms. Written as a choice by an exclusive
/// or, its name has clauses over which unit propagation reaches nothing that it doesn't reach over
/// the six: so a learned clause stays new.
pub fn majority_is_named()
    ensures { MajorityIsNamed }
{}
