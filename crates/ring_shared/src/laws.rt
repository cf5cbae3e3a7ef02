//! What holds of any call on an end of a running ring, and of all calls on both ends.
ghost use Rattle.ring_shared.specs.FewSteps.{FramesMakeFewSteps};
ghost use Rattle.ring_shared.specs.Laws.{CallsAppend, ClosesAppend, EndsAppend, NumbersAreReportedAgain, PushesAppend};
ghost use Rattle.ring_shared.specs.Laws.{RefusalsAppend, ReservationsAppend};
ghost use Rattle.ring_shared.specs.Receipts.{WhatReturnedIsSeen, WhatReturnedStandsBefore};
ghost use Rattle.ring_shared.specs.RunLaws.{ReaderStepsEndRuns, ReaderStepsStand, RunsAreReached, WriterCallsEndRuns};
ghost use Rattle.ring_shared.specs.RunLaws.{WriterStepsStand};
ghost use Rattle.ring_shared.specs.TailLaws.{TailsAreTheRest};
ghost use Rattle.ring_shared.specs.TakenLaws.{TakesAreMade};
ghost use Rattle.ring_shared.specs.WholeLaws.{FinishesClose, FinishesLeft, FinishesRefused, FinishesReserve};
ghost use Rattle.ring_shared.specs.WholeLaws.{PaddedTwice, RefusedWritesAppend, RefusedWritesKeepFrames};
ghost use Rattle.ring_shared.specs.WholeLaws.{RefusedWritesReserveNone, WritersHaveHistories, WritesAppend};
ghost use Rattle.ring_shared.specs.WholeLaws.{WritesReserve};

/// A call appends to the history of its writer's frames exactly what its answer, in a state with that writer's part
/// before it, stands for: an answered push its push, an end its leave with the payload, a number that is answered to a
/// waiting frame one reservation, and one that is answered again nothing.
pub fn calls_append()
    ensures calls { CallsAppend }
    ensures pushes { PushesAppend }
    ensures closes { ClosesAppend }
    ensures ends { EndsAppend }
    ensures reserves { ReservationsAppend }
    ensures again { NumbersAreReportedAgain }
    ensures refusals { RefusalsAppend }
{}

/// `finish_top` of a waiting record frame begins fills and then reserves, or leaves without a record; a close frame
/// begins fills and leaves, and then, as a frame that has left does alone, does what the reader's wish asks for.
/// `write` appends its push, fills that are begun, one reservation, the leave with the padded payload, and then what
/// the wish asks for; refused it appends nothing, or the same with no reservation and a leave without a record.
pub fn whole_calls_append()
    ensures reserves { FinishesReserve }
    ensures refused { FinishesRefused }
    ensures closes { FinishesClose }
    ensures leaves { FinishesLeft }
    ensures writes { WritesAppend }
    ensures refused_writes { RefusedWritesAppend }
{}

/// A write adds exactly its record to the reserved ones, its moment raised to the last one's; a refused write adds
/// none, and leaves exactly the frames that were there. Padding a payload that is padded changes nothing.
pub fn writes_reserve_their_record()
    ensures writes { WritesReserve }
    ensures refused { RefusedWritesReserveNone }
    ensures frames { RefusedWritesKeepFrames }
    ensures padded { PaddedTwice }
{}

/// The history of a writer's end keeps the discipline of the stack and is packed. The writer reports the number of the
/// oldest fill that isn't closed, and how many frames it has; with no frame, all fills that are begun but the tail are
/// closed.
pub fn writers_have_histories()
    ensures { WritersHaveHistories }
{}

/// A take adds to what its reader made exactly its steps, the last of which has the take's answer, or none has it.
pub fn takes_are_made()
    ensures { TakesAreMade }
{}

/// What a writer had done when it gave a receipt is before all that its reader does after it has learned the
/// receipt. So if a take finds nothing from then on, the number that it answers is no lower than the writer's
/// `done` was; and in the run of both ends each step of the former is before each of the latter.
pub fn what_returned_is_seen()
    ensures seen { WhatReturnedIsSeen }
    ensures before { WhatReturnedStandsBefore }
{}

/// If a take has found that all closed fills are passed, the writer has no frame, and neither end has made a step
/// since, then the pages that were taken, followed by the tail, have all committed records but those that are counted
/// as missed.
pub fn tails_are_the_rest()
    ensures { TailsAreTheRest }
{}

/// Whatever calls were made on the two ends of a ring, in whatever threads: once the ends are settled, the steps of all
/// calls are one run of the ring's model, and after each step of an end the run has reached a state with that end's
/// part. So what is proved of states that steps reach, and of runs, holds of it.
pub fn both_ends_made_one_run()
    ensures reached { RunsAreReached }
    ensures writer { WriterStepsStand }
    ensures reader { ReaderStepsStand }
{}

/// After each step of an end, whether it is settled or not, there is a run of a new ring in which this end made exactly
/// its steps up to this one.
pub fn calls_end_runs()
    ensures writer { WriterCallsEndRuns }
    ensures reader { ReaderStepsEndRuns }
{}

/// Of the steps that a writer's end has made by now, the last ones that each brought the same frame nearer to being
/// gone are at most 3N + 52, its record's end among them: whatever the reader did in between.
pub fn frames_make_few_steps()
    ensures { FramesMakeFewSteps }
{}
