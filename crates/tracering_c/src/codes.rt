//! The numbers by which C is answered: 0 and below if the call did what it says, else a positive one: why it didn't;
//! what is changed all the same, each call says.
use collector::{AddFault, Added};
use library_values::listed_collector::{AddRefusal, Given};
use nested_writer::WriteFault;
use page_image::ImageFault;
use page_numbers::ParcelFault;
use record_words::WordFault;

/// The close is completed, and the page that is written had no record: nothing is closed.
pub const NOTHING_CLOSED: i32 = -4;
/// The two collectors don't have and miss the same.
pub const DIFFERENT: i32 = -3;
/// All that the parcel has and misses was there already.
pub const KNOWN: i32 = -2;
/// The record of the frame on top is reserved.
pub const RESERVED: i32 = -1;
/// The call did what it says.
pub const DONE: i32 = 0;
/// Four frames are begun and not completed.
const TOO_DEEP: i32 = 1;
/// The payload doesn't fit.
pub const TOO_LONG: i32 = 2;
/// The moment has no room in a record.
const LATE_MOMENT: i32 = 3;
/// A page is needed, and all are begun and not closed.
const CROWDED: i32 = 4;
/// A page is needed, and no number is left for one more fill.
const WORN: i32 = 5;
/// Nothing is begun.
const NO_FRAME: i32 = 6;
/// The frame on top has no record.
const NOT_RESERVED: i32 = 7;
/// The handle has nothing: it is new, or what it had was freed or settled.
pub const ABSENT: i32 = 8;
/// A handle that something new is to go to has something.
pub const IN_USE: i32 = 9;
/// There is no memory.
pub const NO_MEMORY: i32 = 12;
/// A ring can't have this number of pages, or this data size.
pub const BAD_SIZE: i32 = 13;
/// There is no such CPU.
pub const BAD_CPU: i32 = 14;
/// No closed page is unread; or the page that is written has no record.
pub const EMPTY: i32 = 15;
/// A move of the head isn't finished, or the take has made as many steps as it may.
pub const MOVING: i32 = 16;
/// The caller's buffer is too short.
pub const NO_ROOM: i32 = 17;
/// The writer has begun a record, or a close, that isn't completed.
pub const NOT_AT_REST: i32 = 18;
/// The last take didn't find that all closed pages are taken or lost.
pub const UNREAD: i32 = 19;
/// There are fewer bytes than a parcel has before its page's data (48).
const TOO_SHORT: i32 = 20;
/// The size that an image states is above what follows, or the image is too long.
const BAD_IMAGE_SIZE: i32 = 21;
/// A stored count of missed records is stated, and there are no bytes for it.
const BAD_COUNT: i32 = 22;
/// The data ends within a word.
const CUT: i32 = 23;
/// No word has this length.
const BAD_LENGTH: i32 = 24;
/// A moment doesn't fit 64 bits.
const TIME_OVERFLOW: i32 = 25;
/// The number after the last record's doesn't fit 64 bits.
const NUMBER_OVERFLOW: i32 = 26;
/// More numbers are missing before the first record's than there are.
const MISSED_TOO_MANY: i32 = 27;
/// The page states other missed records than the number before it.
const MISSED_DIFFERS: i32 = 28;
/// There are two different records of one number.
pub const CLASH: i32 = 29;
/// A number has a record and is missing.
pub const TAKEN_AND_MISSING: i32 = 30;
/// All lines of the listing were given.
pub const END: i32 = 31;

ghost use Rattle.std.specs.Prelude.{◌≡◌};
ghost use Rattle.tracering_c.specs.Codes.{fault_code, word_code, image_code, parcel_code, add_code, given_code};

/// The number of a refusal.
pub fn code_of(fault: WriteFault) -> i32
    ensures { result ≡ fault_code fault }
{
    match fault {
        WriteFault::TooDeep => TOO_DEEP,
        WriteFault::TooLong => TOO_LONG,
        WriteFault::LateMoment => LATE_MOMENT,
        WriteFault::Crowded => CROWDED,
        WriteFault::Worn => WORN,
        WriteFault::NoFrame => NO_FRAME,
        WriteFault::NotReserved => NOT_RESERVED,
    }
}

/// The number of a bad word.
fn code_of_word(fault: WordFault) -> i32
    ensures { result ≡ word_code fault }
{
    match fault {
        WordFault::Cut(_) => CUT,
        WordFault::BadLength(_) => BAD_LENGTH,
        WordFault::TimeOverflow(_) => TIME_OVERFLOW,
    }
}

/// The number of an image's fault, or that there is no memory.
fn code_of_image(fault: ImageFault) -> i32
    ensures { result ≡ image_code fault }
{
    match fault {
        ImageFault::TooShort => TOO_SHORT,
        ImageFault::BadSize => BAD_IMAGE_SIZE,
        ImageFault::BadCount => BAD_COUNT,
        ImageFault::Word(fault) => code_of_word(fault),
        ImageFault::NoMemory => NO_MEMORY,
    }
}

/// The number of why bytes are no parcel, or that there is no such CPU or no memory.
pub(crate) fn code_of_parcel(fault: ParcelFault) -> i32
    ensures { result ≡ parcel_code fault }
{
    match fault {
        ParcelFault::Image(fault) => code_of_image(fault),
        ParcelFault::NumberOverflow => NUMBER_OVERFLOW,
        ParcelFault::MissedTooMany => MISSED_TOO_MANY,
        ParcelFault::MissedDiffers => MISSED_DIFFERS,
        ParcelFault::BadCpu => BAD_CPU,
        ParcelFault::NoMemory => NO_MEMORY,
    }
}

/// The number of what is answered to bytes that are to be added.
pub fn code_of_add(answer: Result<Added, AddRefusal>) -> i32
    ensures { result ≡ add_code answer }
{
    match answer {
        Ok(Added::New) => DONE,
        Ok(Added::Known) => KNOWN,
        Err(AddRefusal::Parcel(fault)) => code_of_parcel(fault),
        Err(AddRefusal::Add(AddFault::Clash(_, _))) => CLASH,
        Err(AddRefusal::Add(AddFault::TakenAndMissing(_, _))) => TAKEN_AND_MISSING,
        Err(AddRefusal::Add(AddFault::NoMemory)) => NO_MEMORY,
    }
}

/// The number of what is given of a listing.
pub fn code_of_given(given: Given) -> i32
    ensures { result ≡ given_code given }
{
    match given {
        Given::Line(_) => DONE,
        Given::NoRoom(_) => NO_ROOM,
        Given::End => END,
    }
}
