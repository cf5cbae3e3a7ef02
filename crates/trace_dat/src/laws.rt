//! Laws of the reading of a file: what is read is what is spelled.
ghost use Rattle.trace_dat.specs.Laws.{ReadIsSpelled, SpelledIsRead};

/// A file that is read is spelled, as a whole, as version 6 or as version 7 is, and holds exactly what is read of it.
pub fn read_is_spelled()
    ensures { ReadIsSpelled }
{}

/// A file that is spelled as version 6 or as version 7 is, is read, and holds exactly what it is said to hold. So no
/// file is spelled with two contents.
pub fn spelled_is_read()
    ensures { SpelledIsRead }
{}
