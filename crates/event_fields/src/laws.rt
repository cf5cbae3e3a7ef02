//! Laws of the reading of formats, and of where the bytes of fields are.
ghost use Rattle.event_fields.specs.Laws.{BytesAreInPayload, LinesHaveParts, NamesDiffer};

/// The bytes of a field are bytes of its record's payload, one after the other: nothing outside it is ever taken for a
/// field.
pub fn bytes_are_in_payload()
    ensures { BytesAreInPayload }
{}

/// A line that describes a field consists of a declaration, an offset, a size and a sign, and has nothing else.
pub fn lines_have_parts()
    ensures { LinesHaveParts }
{}

/// The fields of a format aren't too many, and no two of them have the same name.
pub fn names_differ()
    ensures { NamesDiffer }
{}
