//! What sketches mean, and what they are made of. These functions do nothing.
ghost use Rattle.term_sketches.specs.Valuing.{SketchesAreMadeOf, SketchesAreSmall, SketchesHaveTypes, SketchesMean};

use y_tree::laws::{sameness, sorts_are_decided};

/// A sketch means what its operator makes of the values of the literals.
pub fn sketches_mean()
    ensures { SketchesMean }
{
    sorts_are_decided();
    sameness();
}

/// What a sketch is made of has types that it takes.
pub fn sketches_have_types()
    ensures { SketchesHaveTypes }
{
    sorts_are_decided();
}

/// A sketch has few parts, and no atoms but those of the literals and truth.
#[tactic(auto, using(crate::proofs::Small::sketches_small, crate::proofs::Small::sketches_made))]
pub fn sketches_are_small()
    ensures small { SketchesAreSmall }
    ensures made { SketchesAreMadeOf }
{}
