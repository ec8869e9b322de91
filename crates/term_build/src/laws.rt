//! What follows from the relations of the constructors.
ghost use Rattle.term_build.specs.Lasting.{AddsNothingAgain, AddsNothingInBuilding, AddsNothingWhereLive, AnswersAgain, AnswersAgainInBuilding, BuildingLasts};

use term_sketches::sketches_are_small;
use y_tree::laws::sorts_are_decided;

/// While terms are built, whatever was said of live terms stays: shapes, types, trees and counts, names, and which
/// handles were freed.
#[tactic(auto, using(crate::proofs::Lasts::building_lasts))]
pub fn after_building()
    ensures { BuildingLasts }
{}

/// One constructor over the same live arguments answers the same handle, also where collections came in between, as long
/// as the first answer is there.
pub fn one_answer()
    ensures again { AnswersAgain }
    ensures in_building { AnswersAgainInBuilding }
{
    sorts_are_decided();
    sketches_are_small();
}

/// What was built once is there: one constructor over the same live arguments changes nothing when it is called again,
/// and answers the handle that it answered first, as long as that one is live. So an expression that is built a second
/// time, call by call, adds no term.
pub fn nothing_added_again()
    ensures again { AddsNothingAgain }
    ensures live { AddsNothingWhereLive }
    ensures in_building { AddsNothingInBuilding }
{
    sorts_are_decided();
    sketches_are_small();
}
