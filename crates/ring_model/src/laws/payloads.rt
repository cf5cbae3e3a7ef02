//! Laws of a record's payload: its page until its frame ends, and what the end writes.
ghost use Rattle.ring_model.specs.PayloadLaws.{EndsWriteOnePage, ReservedDiffer, ReservedLiesOpen};

/// A record that a frame has reserved is in one page, that of a fill that isn't closed, and has no bytes yet; no two
/// frames have reserved the same one.
pub fn reserved_records_lie_open()
    ensures lies { ReservedLiesOpen }
    ensures differ { ReservedDiffer }
{}

/// The end of a record writes its payload into the page that holds it, and changes no other page.
pub fn ends_write_one_page()
    ensures one { EndsWriteOnePage }
{}
