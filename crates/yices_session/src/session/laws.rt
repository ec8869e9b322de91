//! The laws that the proofs of a session rest on.
ghost use Rattle.term_build.specs.Building.{AreKnown};

use term_sketches::{sketches_are_small, sketches_have_types, sketches_mean};
use y_tree::laws::{misfits, sorts_are_decided, trees_have_sorts};

/// What is known of trees and of sketches.
pub(crate) fn known()
    ensures { AreKnown }
{
    misfits();
    sorts_are_decided();
    trees_have_sorts();
    sketches_mean();
    sketches_have_types();
    sketches_are_small();
}
