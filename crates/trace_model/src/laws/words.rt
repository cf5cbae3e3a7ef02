//! Laws over record words and the data of a page.
ghost use Rattle.std.specs.Prelude.{◌≡◌, ℕ, ◌≤◌, ◌⊎◌, List, length, All};
ghost use Rattle.trace_model.specs.Faults.{Cause, IsWordFault, HasWord, HasEnding, HasFault};
ghost use Rattle.trace_model.specs.FirstFault.{AreBytes, FirstFault};
ghost use Rattle.trace_model.specs.Laws.{EncodingHasItsLength, EncodingsReadBack, OverwritingChangesOneRecord};
ghost use Rattle.trace_model.specs.Laws.{OverwritingKeepsPlaces, OverwritingKeepsTheEnd, PlacesAreUnique};
ghost use Rattle.trace_model.specs.Laws.{PlainReaderAgrees, ReadingIsUnique};
ghost use Rattle.trace_model.specs.Record.{Record, IsRecord};
ghost use Rattle.trace_model.specs.Words.{Decodes};

/// A payload that fills its slot takes exactly the bytes that the writer computes before it writes it.
pub fn encoding_len()
    ensures reckoned { EncodingHasItsLength }
{}

/// What is encoded is read back, if moments never fall and stay below 2^59, and each payload fills its slot and has
/// fewer than 2^32 - 4 bytes.
pub fn encodings_read_back()
    ensures read_back { EncodingsReadBack }
{}

/// Data reads as one list of records at most, however it is cut into words.
pub fn reading_is_unique()
    ensures unique { ReadingIsUnique }
{}

/// If data reads as records, the plain reader, which goes word by word, finds those records.
pub fn plain_reader_agrees()
    ensures agrees { PlainReaderAgrees }
{}

/// Each record that data reads as fills whole words.
pub fn decoded_records_are_records()
    ensures { (bytes : List ℕ) (time : ℕ) (records : List Record) →
        Decodes bytes time records → All IsRecord records }
{}

/// Bytes written over a record's payload change that record's bytes and nothing else of what is read; the places of all
/// records stay, and a record may still follow.
pub fn overwriting_changes_one_record()
    ensures replaced { OverwritingChangesOneRecord }
    ensures places { OverwritingKeepsPlaces }
    ensures still_open { OverwritingKeepsTheEnd }
{}

/// A record has one place in the data, and where a payload starts decides which record's it is.
pub fn places_are_unique()
    ensures unique { PlacesAreUnique }
{}

/// Data that isn't empty begins with a whole word, an ending padding or one fault: one of the three and only one.
pub fn front_of_data()
    ensures one { (bytes : List ℕ) → 1 ≤ length bytes
        → HasWord bytes ⊎ (HasEnding bytes ⊎ HasFault bytes) }
    ensures word_is_no_ending { (bytes : List ℕ) → HasWord bytes → ¬ HasEnding bytes }
    ensures word_is_no_fault { (bytes : List ℕ) → HasWord bytes → ¬ HasFault bytes }
    ensures ending_is_no_fault { (bytes : List ℕ) → HasEnding bytes → ¬ HasFault bytes }
    ensures one_fault { (bytes : List ℕ) (cause other : Cause) → IsWordFault bytes cause
        → IsWordFault bytes other → cause ≡ other }
{}

/// Data with a time has one reading or one first fault, with its offset, and never both.
pub fn reading_or_first_fault()
    ensures one { (bytes : List ℕ) (time : ℕ) → AreBytes bytes
        → ((records : List Record) × Decodes bytes time records)
        ⊎ ((cause : Cause) × (at : ℕ) × FirstFault bytes time cause at) }
    ensures reading_is_no_fault { (bytes : List ℕ) (time : ℕ) (records : List Record)
        (cause : Cause) (at : ℕ) → Decodes bytes time records → ¬ FirstFault bytes time cause at }
    ensures one_fault { (bytes : List ℕ) (time : ℕ) (cause other : Cause) (at there : ℕ)
        → FirstFault bytes time cause at → FirstFault bytes time other there
        → (cause ≡ other) × (at ≡ there) }
{}
