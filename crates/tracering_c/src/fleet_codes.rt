//! The numbers and places by which C is answered of fleets.
use crate::codes::{
    CLASH, DONE, END, KNOWN, NO_MEMORY, NO_ROOM, TAKEN_AND_MISSING, code_of_parcel,
};
use fleet_collector::{FleetMergeFault, PieceRefusal};
use library_values::buffer::Put;
use library_values::listed_fleet::{AddAnswer, Given, LineNumbers, RefusedPiece};
use page_numbers::ParcelFault;
use parcel_streams::PieceFault;
use stream_collector::{AddFault, Added, MarkFault, Marked, MergeFault};
use trace_model::Moment;

/// The parcel ends below the bound of its CPU.
pub const FORGOTTEN: i32 = -5;
/// The bytes don't begin as a piece of a stream does.
const NOT_PACKED: i32 = 33;
/// They end within the piece.
const PIECE_CUT: i32 = 34;
/// It is of another version.
const BAD_VERSION: i32 = 35;
/// No piece has the length that is stated.
const BAD_PIECE_LENGTH: i32 = 36;
/// Its checksum is another one.
const BAD_SUM: i32 = 37;
/// It is neither a parcel nor a mark that is known.
const BAD_KIND: i32 = 38;
/// Its parcel is spelled otherwise than it is packed.
const LOOSE: i32 = 39;
/// The mark has another length than its kind's, or says what none says.
const BAD_MARK: i32 = 40;
/// A number is at or beyond the end of its CPU.
const BEYOND_END: i32 = 41;
/// The CPU has another end.
const OTHER_END: i32 = 42;
/// A number below the bound isn't accounted for.
const NOT_FINAL: i32 = 43;

/// Where a piece, or what a call was to do, is at odds with a stream.
#[repr(C)]
#[derive(Clone, Copy)]
pub struct StreamFault {
    /// The stream.
    pub stream: u64,
    /// The number at odds.
    pub number: u64,
    /// The CPU of the stream whose number it is.
    pub cpu: u32,
}

/// A line of a fleet's listing, without its bytes.
#[repr(C)]
#[derive(Clone, Copy)]
pub struct FleetLine {
    /// When the record was made.
    pub moment: u64,
    /// The stream that has it.
    pub stream: u64,
    /// The record's number among those of its CPU.
    pub number: u64,
    /// The CPU of that stream that made it.
    pub cpu: u32,
    /// How many bytes it has.
    pub len: usize,
}

ghost use Rattle.std.specs.Prelude.{◌≡◌};
ghost use Rattle.tracering_c.specs.FleetCodes.{piece_code, parcel_refusal_code, mark_code, refusal_code, added_code};
ghost use Rattle.tracering_c.specs.FleetCodes.{answer_code, answer_used, answer_at, marked_code, marked_at, merge_code};
ghost use Rattle.tracering_c.specs.FleetCodes.{merged_code, packed_code, packed_len, found_code, frontier_code};
ghost use Rattle.tracering_c.specs.FleetCodes.{frontier_moment, given_code, next_line, line_at, parcel_number};
ghost use Rattle.tracering_c.specs.FleetCodes.{mark_number, refusal_number, place_at};

/// The number of why bytes have no piece at their front.
fn code_of_piece(fault: PieceFault) -> i32
    ensures { result ≡ piece_code fault }
{
    match fault {
        PieceFault::NotPacked => NOT_PACKED,
        PieceFault::Cut => PIECE_CUT,
        PieceFault::BadVersion => BAD_VERSION,
        PieceFault::BadLength => BAD_PIECE_LENGTH,
        PieceFault::BadSum => BAD_SUM,
        PieceFault::BadKind => BAD_KIND,
        PieceFault::Parcel(fault) => code_of_parcel(fault),
        PieceFault::Loose => LOOSE,
        PieceFault::BadMark => BAD_MARK,
        PieceFault::NoMemory => NO_MEMORY,
    }
}

/// The number of why a parcel isn't added.
fn code_of_parcel_refusal(fault: AddFault) -> i32
    ensures { result ≡ parcel_refusal_code fault }
{
    match fault {
        AddFault::BeyondEnd(_, _) => BEYOND_END,
        AddFault::Refused(collector::AddFault::Clash(_, _)) => CLASH,
        AddFault::Refused(collector::AddFault::TakenAndMissing(_, _)) => TAKEN_AND_MISSING,
        AddFault::Refused(collector::AddFault::NoMemory) => NO_MEMORY,
    }
}

/// The number of why a mark isn't added, or a bound not raised.
fn code_of_mark(fault: MarkFault) -> i32
    ensures { result ≡ mark_code fault }
{
    match fault {
        MarkFault::OtherEnd(_) => OTHER_END,
        MarkFault::BeyondEnd(_) => BEYOND_END,
        MarkFault::NotFinal(_) => NOT_FINAL,
        MarkFault::NoMemory => NO_MEMORY,
    }
}

/// The number of why a piece isn't added.
fn code_of_refusal(refusal: PieceRefusal) -> i32
    ensures { result ≡ refusal_code refusal }
{
    match refusal {
        PieceRefusal::Parcel(fault) => code_of_parcel_refusal(fault),
        PieceRefusal::Mark(fault) => code_of_mark(fault),
    }
}

/// The number of what became of a piece that was added.
fn code_of_added(added: Added) -> i32
    ensures { result ≡ added_code added }
{
    match added {
        Added::New => DONE,
        Added::Known => KNOWN,
        Added::Forgotten => FORGOTTEN,
    }
}

/// The number of what is answered to bytes whose first piece is to be added.
pub fn code_of_answer(answer: AddAnswer) -> i32
    ensures { result ≡ answer_code answer }
{
    match answer {
        AddAnswer::Added(added, _) => code_of_added(added),
        AddAnswer::Refused(refused, _) => code_of_refusal(refused.refusal),
        AddAnswer::NoPiece(fault) => code_of_piece(fault),
    }
}

/// How many bytes the piece has, if it could be read; else as it was.
pub fn used_of(answer: AddAnswer, was: usize) -> usize
    ensures { result ≡ answer_used was answer }
{
    match answer {
        AddAnswer::Added(_, len) => len,
        AddAnswer::Refused(_, len) => len,
        AddAnswer::NoPiece(_) => was,
    }
}

/// The number under which a parcel is refused.
fn number_of_parcel(fault: AddFault) -> Option<u64>
    ensures { result ≡ parcel_number fault }
{
    match fault {
        AddFault::BeyondEnd(_, number) => Some(number.0),
        AddFault::Refused(collector::AddFault::Clash(_, number)) => Some(number.0),
        AddFault::Refused(collector::AddFault::TakenAndMissing(_, number)) => Some(number.0),
        AddFault::Refused(collector::AddFault::NoMemory) => None,
    }
}

/// The number under which a mark is refused.
fn number_of_mark(fault: MarkFault) -> Option<u64>
    ensures { result ≡ mark_number fault }
{
    match fault {
        MarkFault::OtherEnd(number) => Some(number.0),
        MarkFault::BeyondEnd(number) => Some(number.0),
        MarkFault::NotFinal(number) => Some(number.0),
        MarkFault::NoMemory => None,
    }
}

/// The number under which a piece is refused.
fn number_of(refusal: PieceRefusal) -> Option<u64>
    ensures { result ≡ refusal_number refusal }
{
    match refusal {
        PieceRefusal::Parcel(fault) => number_of_parcel(fault),
        PieceRefusal::Mark(fault) => number_of_mark(fault),
    }
}

impl StreamFault {
    ghost use Rattle.std.specs.Prelude.{◌≡◌};
    ghost use Rattle.tracering_c.specs.FleetCodes.{answer_at, marked_at, merged_at, place_at};

    /// This place, if there is a number; else as it was.
    fn place(self, stream: u64, cpu: u32, number: Option<u64>) -> StreamFault
        ensures { result ≡ place_at self stream cpu number }
    {
        match number {
            Some(number) => StreamFault {
                stream,
                number,
                cpu,
            },
            None => self,
        }
    }

    /// Where this answer says that a piece is refused; else as it was.
    pub(crate) fn of(self, answer: AddAnswer) -> StreamFault
        ensures { result ≡ answer_at self answer }
    {
        let AddAnswer::Refused(refused, _) = answer else {
            return self;
        };
        let RefusedPiece {
            stream,
            cpu,
            refusal,
        } = refused;
        self.place(stream.0, cpu.0, number_of(refusal))
    }

    /// Where this fault says that fleets are at odds; else as it was.
    pub(crate) fn of_merged(self, fault: Option<FleetMergeFault>) -> StreamFault
        ensures { result ≡ merged_at self fault }
    {
        let Some(FleetMergeFault { stream, fault }) = fault else {
            return self;
        };
        match fault {
            MergeFault::OtherEnd(cpu, _, end) => self.place(stream.0, cpu.0, Some(end.0)),
            MergeFault::BeyondEnd(cpu, number) => self.place(stream.0, cpu.0, Some(number.0)),
            MergeFault::Clash(cpu, number) => self.place(stream.0, cpu.0, Some(number.0)),
            MergeFault::TakenAndMissing(cpu, number) => {
                self.place(stream.0, cpu.0, Some(number.0))
            }
            MergeFault::NoMemory => self,
        }
    }

    /// Where this answer says that a bound isn't raised; else as it was.
    pub(crate) fn of_marked(
        self,
        stream: u64,
        cpu: u32,
        answer: Result<Marked, MarkFault>,
    ) -> StreamFault
        ensures { result ≡ marked_at self stream cpu answer }
    {
        match answer {
            Ok(_) => self,
            Err(fault) => self.place(stream, cpu, number_of_mark(fault)),
        }
    }
}

/// The number of what is answered to a bound that is to be raised.
pub fn code_of_marked(answer: Result<Marked, MarkFault>) -> i32
    ensures { result ≡ marked_code answer }
{
    match answer {
        Ok(Marked::New) => DONE,
        Ok(Marked::Known) => KNOWN,
        Err(fault) => code_of_mark(fault),
    }
}

/// The number of why streams aren't merged.
fn code_of_merge(fault: MergeFault) -> i32
    ensures { result ≡ merge_code fault }
{
    match fault {
        MergeFault::OtherEnd(_, _, _) => OTHER_END,
        MergeFault::BeyondEnd(_, _) => BEYOND_END,
        MergeFault::Clash(_, _) => CLASH,
        MergeFault::TakenAndMissing(_, _) => TAKEN_AND_MISSING,
        MergeFault::NoMemory => NO_MEMORY,
    }
}

/// The number of what is answered to fleets that are to be merged.
pub fn code_of_merged(fault: Option<FleetMergeFault>) -> i32
    ensures { result ≡ merged_code fault }
{
    match fault {
        Some(fault) => code_of_merge(fault.fault),
        None => DONE,
    }
}

/// The number of what became of a piece that was to go to a buffer.
pub fn code_of_packed(answer: Result<Put, ParcelFault>) -> i32
    ensures { result ≡ packed_code answer }
{
    match answer {
        Ok(Put::Done(_)) => DONE,
        Ok(Put::NoRoom(_)) => NO_ROOM,
        Err(fault) => code_of_parcel(fault),
    }
}

/// How many bytes it has, if it could be packed; else as it was.
pub fn len_of_packed(answer: Result<Put, ParcelFault>, was: usize) -> usize
    ensures { result ≡ packed_len was answer }
{
    match answer {
        Ok(Put::Done(len)) => len,
        Ok(Put::NoRoom(len)) => len,
        Err(_) => was,
    }
}

/// The number of what is found.
pub fn code_of_found(found: Option<u64>) -> i32
    ensures { result ≡ found_code found }
{
    match found {
        Some(_) => DONE,
        None => END,
    }
}

/// The number of what CPU is found.
pub fn code_of_found_cpu(found: Option<u32>) -> i32
    ensures { result ≡ found_code found }
{
    match found {
        Some(_) => DONE,
        None => END,
    }
}

/// The number of a frontier, if there is one.
pub fn code_of_frontier(found: Option<Moment>) -> i32
    ensures { result ≡ frontier_code found }
{
    match found {
        Some(_) => DONE,
        None => END,
    }
}

/// Its moment; else as it was.
pub fn moment_of_frontier(found: Option<Moment>, was: u64) -> u64
    ensures { result ≡ frontier_moment was found }
{
    match found {
        Some(moment) => moment.0,
        None => was,
    }
}

/// The number of what is given of a listing.
pub fn code_of_given(given: Given) -> i32
    ensures { result ≡ given_code given }
{
    match given {
        Given::Line(_) => DONE,
        Given::NoRoom(_) => NO_ROOM,
        Given::End => END,
    }
}

/// The numbers of a line.
fn line_of(numbers: LineNumbers) -> FleetLine
    ensures { result ≡ line_at numbers }
{
    FleetLine {
        moment: numbers.moment.0,
        stream: numbers.stream.0,
        number: numbers.number.0,
        cpu: numbers.cpu.0,
        len: numbers.len,
    }
}

/// The numbers of the line that is next, if there is one; else as it was.
pub fn next_line_of(given: Given, was: FleetLine) -> FleetLine
    ensures { result ≡ next_line was given }
{
    match given {
        Given::Line(numbers) => line_of(numbers),
        Given::NoRoom(numbers) => line_of(numbers),
        Given::End => was,
    }
}
