//! Laws over the fills of a history.
ghost use Rattle.trace_model.specs.HistoryLaws.{PackedFillsAreFull};
ghost use Rattle.trace_model.specs.Packing.{FillHasItsLength};

/// What the writer computes for the records of a fill is the length of the page's data that holds them, as they are
/// read: with their payloads, or with zeros where these are still open.
pub fn fill_len_is_encoding_len()
    ensures reckoned { FillHasItsLength }
{}

/// In a packed history every fill but the last holds a record: a page is begun only after one that isn't empty.
pub fn packed_fills_hold_records()
    ensures full { PackedFillsAreFull }
{}
