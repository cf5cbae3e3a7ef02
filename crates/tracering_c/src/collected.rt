//! What is reported of a collector's parcels and lines, as C keeps it.
use collector::{AddFault, Added};
use library_values::listed_collector::{AddRefusal, Given, LineNumbers};
use page_image::ImageFault;
use page_numbers::ParcelFault;
use record_words::WordFault;

/// Where a parcel is refused.
#[repr(C)]
#[derive(Clone, Copy)]
pub struct FaultAt {
    /// The number at odds; or where in its page's data a word is bad.
    pub number: u64,
    /// The CPU whose number it is.
    pub cpu: u32,
}

impl FaultAt {
    ghost use Rattle.std.specs.Prelude.{◌≡◌};
    ghost use Rattle.tracering_c.specs.Codes.{fault_at};

    /// Where this answer says that bytes are refused; else as it was.
    pub(crate) fn of(answer: Result<Added, AddRefusal>, was: FaultAt) -> FaultAt
        ensures { result ≡ fault_at was answer }
    {
        match answer {
            Err(AddRefusal::Add(AddFault::Clash(cpu, number))) => FaultAt {
                number: number.0,
                cpu: cpu.0,
            },
            Err(AddRefusal::Add(AddFault::TakenAndMissing(cpu, number))) => FaultAt {
                number: number.0,
                cpu: cpu.0,
            },
            Err(AddRefusal::Parcel(ParcelFault::Image(ImageFault::Word(fault)))) => FaultAt {
                number: offset_of(fault),
                cpu: was.cpu,
            },
            _ => was,
        }
    }
}

ghost use Rattle.std.specs.Prelude.{◌≡◌};
ghost use Rattle.tracering_c.specs.Codes.{word_at};

/// Where the bad word is.
fn offset_of(fault: WordFault) -> u64
    ensures { result ≡ word_at fault }
{
    match fault {
        WordFault::Cut(at) => at as u64,
        WordFault::BadLength(at) => at as u64,
        WordFault::TimeOverflow(at) => at as u64,
    }
}

/// A line of a listing, without its bytes.
#[repr(C)]
#[derive(Clone, Copy)]
pub struct Listed {
    /// When the record was made.
    pub moment: u64,
    /// The record's number among those of its CPU.
    pub number: u64,
    /// The CPU that made it.
    pub cpu: u32,
    /// How many bytes it has.
    pub len: usize,
}

impl Listed {
    ghost use Rattle.std.specs.Prelude.{◌≡◌};
    ghost use Rattle.tracering_c.specs.Codes.{line_at, next_line};

    /// The numbers of a line.
    fn of_line(numbers: LineNumbers) -> Listed
        ensures { result ≡ line_at numbers }
    {
        Listed {
            moment: numbers.moment.0,
            number: numbers.number.0,
            cpu: numbers.cpu.0,
            len: numbers.len,
        }
    }

    /// The numbers of the line that is next, if there is one; else as it was.
    pub(crate) fn of(given: Given, was: Listed) -> Listed
        ensures { result ≡ next_line was given }
    {
        match given {
            Given::Line(numbers) => Listed::of_line(numbers),
            Given::NoRoom(numbers) => Listed::of_line(numbers),
            Given::End => was,
        }
    }
}
