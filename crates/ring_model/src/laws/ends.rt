//! Laws of the ends of a ring's frames and takes.
ghost use Rattle.ring_model.specs.FrameOutcomes.{FramesLeave, FramesReserve};
ghost use Rattle.ring_model.specs.Ranks.{EndsComeToAnEnd, FramesAreNearTheirEnd, StepsComeToAnEnd};
ghost use Rattle.ring_model.specs.Ranks.{TakesAreNearTheirAnswer, TakesComeToAnAnswer};
ghost use Rattle.ring_model.specs.WriterRanks.{FramesMakeFewSteps, WriterEndsComeToAnEnd, WriterStepsComeToAnEnd};
ghost use Rattle.ring_model.specs.WriterRanks.{WritersAreNearTheirEnd};

/// A frame that nothing interrupts is gone in the end: each step of a frame that hasn't reserved, and each end, after
/// which it is still on the stack lowers a number (`frame_rank`), which is at most 3N + 52 in a ring of N pages.
pub fn frames_come_to_an_end()
    ensures steps { StepsComeToAnEnd }
    ensures ends { EndsComeToAnEnd }
    ensures near { FramesAreNearTheirEnd }
{}

/// A take is answered in the end: each step after which it goes on lowers a number (`reader_rank`), which is at most 4N
/// + 14.
pub fn takes_come_to_an_answer()
    ensures steps { TakesComeToAnAnswer }
    ensures near { TakesAreNearTheirAnswer }
{}

/// A step of a frame with a record to reserve leaves it waiting, reserves it, or is refused; a frame that closes the
/// tail, or has left, stays or is gone.
pub fn frames_reserve_or_leave()
    ensures reserve { FramesReserve }
    ensures leave { FramesLeave }
{}

/// With steps of the reader between, each step of a frame that hasn't reserved and stays on the stack still lowers a
/// number, at most 3N + 52, by what the writer knows of the fills that are passed; and so does its record's end.
pub fn writers_come_to_an_end()
    ensures steps { WriterStepsComeToAnEnd }
    ensures ends { WriterEndsComeToAnEnd }
    ensures near { WritersAreNearTheirEnd }
{}

/// A frame that isn't asked for its number again makes at most 3N + 52 steps in a run, its record's end among them,
/// before the one by which it is gone: if no other frame interrupts it, and whatever the reader does in between.
pub fn frames_make_few_steps()
    ensures few { FramesMakeFewSteps }
{}
