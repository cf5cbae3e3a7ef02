//! Laws of step texts.
ghost use Rattle.step_model.specs.StepLaws.{ChangesLeadOn, CountsFollowSteps, GainsLeadOn, KeysAreAll};
ghost use Rattle.step_model.specs.StepLaws.{TextsAreOfWorlds, TextsAreOne};

/// What a step prints, assigned to what was seen of the ring before it, is what is seen of it after it, for each step
/// from a state that steps reach; and all keys of a new ring are what is seen of it. So a page that assigns and draws,
/// draws the model's state.
pub fn changes_lead_on()
    ensures steps { ChangesLeadOn }
    ensures new { KeysAreAll }
{}

/// What is printed of a delivery, added to the numbers that the collector had and missed, is what it has and misses
/// then, if the page misses at most as many numbers as there are before it.
pub fn gains_lead_on()
    ensures { GainsLeadOn }
{}

/// The counts that no word of the ring has (the head, the committed and the reserved records, the last moment) follow
/// after a step from those before it, the answer, and the frame on top before and after it.
pub fn counts_follow_steps()
    ensures { CountsFollowSteps }
{}

/// A script has one step text, and that is of its world.
pub fn texts_are_one()
    ensures worlds { TextsAreOfWorlds }
    ensures one { TextsAreOne }
{}
