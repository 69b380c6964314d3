//! What holds of every store that goes on, put by put. Nothing is run.

ghost use Rattle.section_store.specs.Between.{HeldStandsBetween, NothingGoesBetween, PutGoesBetween, GoesBetweenInTurn};
ghost use Rattle.section_store.specs.GoingLaws.{HeldStandsForMore, KeptIsHeld, HeldForGood, NothingGoesOn, PutGoesOn, GoesOnInTurn};
ghost use Rattle.section_store.specs.GoingLaws.{GoesOnByTrees, TrustInTurn};

use crate::laws::stands_for_one;

/// A store at rest stands for its list. From there it goes on by each put, and puts one after the other are one going on. What
/// it has stored at rest each crash leaves, then and at each later moment, tree for tree.
pub fn goes_on()
    ensures more { HeldStandsForMore }
    ensures held { KeptIsHeld }
    ensures lasts { HeldForGood }
    ensures nothing { NothingGoesOn }
    ensures put { PutGoesOn }
    ensures turn { GoesOnInTurn }
    ensures trees { GoesOnByTrees }
    ensures trust { TrustInTurn }
{
    stands_for_one();
}

/// The same of a store that goes on to a list of trees that is known, tree for tree.
pub fn goes_between()
    ensures rest { HeldStandsBetween }
    ensures nothing { NothingGoesBetween }
    ensures put { PutGoesBetween }
    ensures turn { GoesBetweenInTurn }
{}
