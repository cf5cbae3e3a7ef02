//! Laws of what a ring's frames did, and of the partition of its records.
ghost use Rattle.ring_model.specs.HistoryLaws.{AppendedIsOne, RecordNumbersFit, RecordsAreFew, RestIsUnread};
ghost use Rattle.ring_model.specs.HistoryLaws.{RunsAreHistories, RunsArePacked, StepsAppend, TailIsTheRest};
ghost use Rattle.ring_model.specs.HistoryLaws.{TakenAreFills, TakenHoldRecords, TakenPartitionCommitted};

/// What the frames did is a history: it keeps the discipline of the stack.
pub fn runs_are_histories()
    ensures histories { RunsAreHistories }
{}

/// An event appends to the history of the frames exactly what its answer, in the state before it, stands for
/// (`Appends`): a push its push, an end its leave with the payload, a step of the frame on top a reservation, a fill
/// that is begun, a leave without a record or the reader's wish; a refused push or end, and the reader, append nothing.
pub fn steps_append()
    ensures append { StepsAppend }
    ensures one { AppendedIsOne }
{}

/// The fills have room in their pages, and each was begun only when one had to be: after one that isn't empty, for a
/// record that doesn't fit, by a close frame or for the reader's wish. So only the last can be empty, and the reader
/// takes no empty page.
pub fn runs_are_packed()
    ensures packed { RunsArePacked }
    ensures taken { TakenHoldRecords }
{}

/// All records have numbers below 2^61, if pages have at most `MAX_SIZE` bytes: each record takes 8 bytes of a page at
/// least, and fills have numbers below `LINK_FILLS`.
pub fn record_numbers_fit()
    ensures few { RecordsAreFew }
    ensures fit { RecordNumbersFit }
{}

/// No record is lost uncounted, taken twice or moved to another number: the fills that the reader took are, with the
/// records lost between and since, and a rest, a partition of the committed records. Each is a whole fill, under its
/// own number and with its own first record's number, and the numbers rise. With no frame on the stack the rest is what
/// the unread fills hold, and what the tail holds if no closed fill is unread.
pub fn taken_fills_partition_committed()
    ensures partition { TakenPartitionCommitted }
    ensures fills { TakenAreFills }
    ensures rest { RestIsUnread }
    ensures tail { TailIsTheRest }
{}
