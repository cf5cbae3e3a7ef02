//! Laws over histories of frames.
ghost use Rattle.std.specs.Prelude.{List, All};
ghost use Rattle.std.specs.List.{AllByRecursion};
ghost use Rattle.trace_model.specs.History.{HistoryEvent, IsHistory, HasItsBytes, committed_records, reserved_records};
ghost use Rattle.trace_model.specs.History.{settled_prefix};
ghost use Rattle.trace_model.specs.HistoryLaws.{CommittedIsPrefix};
ghost use Rattle.trace_model.specs.Packing.{FillsSlot};
ghost use Rattle.trace_model.specs.Record.{IsRecord};
ghost use Rattle.trace_model.specs.Sublist.{IsPrefix};

/// A record keeps its number from its reservation on: the committed records are the first of the reserved ones, so its
/// index is the same in both.
pub fn committed_is_a_prefix()
    ensures { (history : List HistoryEvent)
        → IsPrefix (reserved_records (settled_prefix history)) (reserved_records history) }
{}

/// What is committed stays as it is, whatever the frames do: the first of the reserved records, read as they are by
/// now, are the committed ones.
pub fn committed_records_stay()
    ensures stay { CommittedIsPrefix }
{}

/// Each committed record of a history fills whole words.
pub fn committed_records_are_records()
    ensures { (history : List HistoryEvent) → All IsRecord (committed_records history) }
{}

/// In a history that keeps the discipline of the stack each reserved record has as many bytes as its slot, an open one
/// counted as zeros. So the length of a fill is known while frames write into it.
pub fn reserved_records_fill_slots()
    ensures fill { (history : List HistoryEvent) → IsHistory history
        → AllByRecursion FillsSlot (reserved_records history) }
{}

/// In a history that keeps the discipline of the stack each committed record has been written, by exactly as many bytes
/// as its slot has: none has open bytes.
pub fn committed_records_are_written()
    ensures { (history : List HistoryEvent) → IsHistory history
        → All HasItsBytes (reserved_records (settled_prefix history)) }
{}
