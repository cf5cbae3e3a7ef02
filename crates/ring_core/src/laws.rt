//! What holds of a ring after any list of events.
ghost use Rattle.ring_core.specs.Runs.{CallsAreRuns, CallsFromNewAreRuns};

/// Any list of events on a ring, with payloads written between them, is a run of the ring's model: from a state that
/// the ring is in to one that it is in after them, with these events and answers.
pub fn calls_are_a_run_of_the_model()
    ensures { CallsAreRuns }
{}

/// Any list of events on a new ring is a run of the model from its one start state.
pub fn calls_on_a_new_ring_are_a_run_from_the_start()
    ensures { CallsFromNewAreRuns }
{}
