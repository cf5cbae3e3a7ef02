//! Laws of a ring's states and steps: what every step keeps, and that each event is one step.
ghost use Rattle.ring_model.specs.RingLaws.{AllIsClosedAtRest, EachEventIsAStep, FewFramesStand, KeptIsRing};
ghost use Rattle.ring_model.specs.RingLaws.{NewRingIsOne, OnlyTheBottomHasLeft, ReachedIsKept, ReachedIsRing};
ghost use Rattle.ring_model.specs.RingLaws.{RunsAreDetermined, StartHasWindow, StartIsKept, StepsAreDetermined};
ghost use Rattle.ring_model.specs.RingLaws.{StepsKeepRing};

/// A new ring has all that steps keep (`IsRingKept`), and its window is the first one.
pub fn start_is_kept()
    ensures kept { StartIsKept }
    ensures window { StartHasWindow }
{}

/// Every step, whichever frame interrupts which, keeps `IsRingKept`, so it holds after every run; and a state for which
/// it holds is a ring (`IsRing`).
pub fn steps_keep_ring()
    ensures kept { StepsKeepRing }
    ensures ring { KeptIsRing }
    ensures reached { ReachedIsKept }
    ensures runs { ReachedIsRing }
{}

/// At most `MAX_FRAMES` frames are on the stack, only the bottom one has left, closes fills and looks for a wish, and
/// if the stack is empty all fills but the tail are closed.
pub fn stacks_come_to_rest()
    ensures few { FewFramesStand }
    ensures bottom { OnlyTheBottomHasLeft }
    ensures at_rest { AllIsClosedAtRest }
{}

/// There is a new ring of each number of positions and each first fill, and only one. So the laws aren't empty.
pub fn new_ring_is_one()
    ensures one { NewRingIsOne }
{}

/// Every event is a step but one: the end of a frame that has reserved, with a payload that doesn't take its slot.
pub fn each_event_is_a_step()
    ensures steps { EachEventIsAStep }
{}

/// An event has one answer and one state after it, so the same events make the same run.
pub fn steps_are_determined()
    ensures steps { StepsAreDetermined }
    ensures runs { RunsAreDetermined }
{}
