//! The line of a fault.
ghost use Rattle.std.specs.Prelude.{◌≡◌, ◌++◌, codes};
ghost use Rattle.std.specs.Fmt.{decimal};
ghost use Rattle.text_values.specs.Putting.{Puts};
ghost use Rattle.fleet_text.specs.Faults.{word_fault_name, image_fault_name, parcel_fault_name, piece_fault_name};
ghost use Rattle.fleet_text.specs.Faults.{refused_by_parcels, refused_parcel, refused_mark, trouble_text, fault_line};
ghost use Rattle.fleet_text.specs.Faults.{numbered_cpu, is_no_memory, is_memory_fault, is_memory_refusal};

use crate::lines::put_cpu;
use command_io::Sink;
use fleet_collector::PieceRefusal;
use page_image::ImageFault;
use page_numbers::ParcelFault;
use parcel_streams::{PieceFault, StreamId};
use record_words::WordFault;
use stream_collector::{AddFault, MarkFault};
use text_values::Out;
use trace_model::{CpuId, RecordNo};

/// Why nothing is made of the next piece of an input.
#[derive(Clone, Copy, Debug, PartialEq, Eq)]
pub enum PieceTrouble {
    /// What is there has no piece at its front.
    Unread(PieceFault),
    /// The piece that is there, of this CPU of a stream, is refused.
    Refused(StreamId, CpuId, PieceRefusal),
}

/// Whether memory was refused for the piece.
fn is_memory_fault(fault: PieceFault) -> bool
    ensures { result ≡ is_memory_fault fault }
{
    matches!(fault, PieceFault::NoMemory)
}

/// Whether memory was refused when it was added.
fn is_memory_refusal(refusal: PieceRefusal) -> bool
    ensures { result ≡ is_memory_refusal refusal }
{
    match refusal {
        PieceRefusal::Parcel(AddFault::Refused(collector::AddFault::NoMemory)) => true,
        PieceRefusal::Mark(MarkFault::NoMemory) => true,
        _ => false,
    }
}

impl PieceTrouble {
    /// Whether memory was refused.
    pub fn is_no_memory(self) -> bool
        ensures { result ≡ is_no_memory self }
    {
        match self {
            PieceTrouble::Unread(fault) => is_memory_fault(fault),
            PieceTrouble::Refused(_, _, refusal) => is_memory_refusal(refusal),
        }
    }
}

/// Puts a word with a number in parentheses.
fn put_word<W: Sink>(out: &mut Out<'_, W>, word: &[u8], number: usize)
    ensures { Puts (word.now ++ decimal number ++ codes ")") out.old out.new }
{
    out.put_numbered(word, number as u64);
    out.put(b")");
}

/// Puts the name of a word's fault.
fn put_word_fault<W: Sink>(out: &mut Out<'_, W>, fault: WordFault)
    ensures { Puts (word_fault_name fault) out.old out.new }
{
    match fault {
        WordFault::Cut(at) => put_word(out, b"Cut(", at),
        WordFault::BadLength(at) => put_word(out, b"BadLength(", at),
        WordFault::TimeOverflow(at) => put_word(out, b"TimeOverflow(", at),
    }
}

/// Puts the name of an image's fault.
fn put_image_fault<W: Sink>(out: &mut Out<'_, W>, fault: ImageFault)
    ensures { Puts (image_fault_name fault) out.old out.new }
{
    match fault {
        ImageFault::TooShort => out.put(b"TooShort"),
        ImageFault::BadSize => out.put(b"BadSize"),
        ImageFault::BadCount => out.put(b"BadCount"),
        ImageFault::Word(fault) => {
            out.put(b"Word(");
            put_word_fault(out, fault);
            out.put(b")");
        }
        ImageFault::NoMemory => out.put(b"NoMemory"),
    }
}

/// Puts the name of a parcel's fault.
fn put_parcel_fault<W: Sink>(out: &mut Out<'_, W>, fault: ParcelFault)
    ensures { Puts (parcel_fault_name fault) out.old out.new }
{
    match fault {
        ParcelFault::Image(fault) => {
            out.put(b"Image(");
            put_image_fault(out, fault);
            out.put(b")");
        }
        ParcelFault::NumberOverflow => out.put(b"NumberOverflow"),
        ParcelFault::MissedTooMany => out.put(b"MissedTooMany"),
        ParcelFault::MissedDiffers => out.put(b"MissedDiffers"),
        ParcelFault::BadCpu => out.put(b"BadCpu"),
        ParcelFault::NoMemory => out.put(b"NoMemory"),
    }
}

/// Puts the name of a piece's fault.
fn put_piece_fault<W: Sink>(out: &mut Out<'_, W>, fault: PieceFault)
    ensures { Puts (piece_fault_name fault) out.old out.new }
{
    match fault {
        PieceFault::NotPacked => out.put(b"NotPacked"),
        PieceFault::Cut => out.put(b"Cut"),
        PieceFault::BadVersion => out.put(b"BadVersion"),
        PieceFault::BadLength => out.put(b"BadLength"),
        PieceFault::BadSum => out.put(b"BadSum"),
        PieceFault::BadKind => out.put(b"BadKind"),
        PieceFault::Parcel(fault) => {
            out.put(b"Parcel(");
            put_parcel_fault(out, fault);
            out.put(b")");
        }
        PieceFault::Loose => out.put(b"Loose"),
        PieceFault::BadMark => out.put(b"BadMark"),
        PieceFault::NoMemory => out.put(b"NoMemory"),
    }
}

/// Puts a word, a CPU of a stream and a number of it.
fn put_number_of<W: Sink>(
    out: &mut Out<'_, W>,
    word: &[u8],
    stream: StreamId,
    cpu: CpuId,
    number: RecordNo,
)
    ensures { Puts (word.now ++ numbered_cpu stream.0 cpu.0 number.0) out.old out.new }
{
    out.put(word);
    put_cpu(out, stream, cpu);
    out.put_numbered(b" ", number.0);
}

/// Puts why a collector refuses a parcel.
fn put_collected<W: Sink>(out: &mut Out<'_, W>, stream: StreamId, fault: collector::AddFault)
    ensures { Puts (refused_by_parcels stream.0 fault) out.old out.new }
{
    match fault {
        collector::AddFault::Clash(cpu, number) => {
            put_number_of(out, b"Clash ", stream, cpu, number);
        }
        collector::AddFault::TakenAndMissing(cpu, number) => {
            put_number_of(out, b"TakenAndMissing ", stream, cpu, number);
        }
        collector::AddFault::NoMemory => out.put(b"NoMemory"),
    }
}

/// Puts why a parcel is refused.
fn put_refused_parcel<W: Sink>(out: &mut Out<'_, W>, stream: StreamId, fault: AddFault)
    ensures { Puts (refused_parcel stream.0 fault) out.old out.new }
{
    match fault {
        AddFault::BeyondEnd(cpu, number) => {
            put_number_of(out, b"BeyondEnd ", stream, cpu, number);
        }
        AddFault::Refused(fault) => put_collected(out, stream, fault),
    }
}

/// Puts why a mark is refused.
fn put_refused_mark<W: Sink>(out: &mut Out<'_, W>, stream: StreamId, cpu: CpuId, fault: MarkFault)
    ensures { Puts (refused_mark stream.0 cpu.0 fault) out.old out.new }
{
    match fault {
        MarkFault::OtherEnd(number) => {
            put_number_of(out, b"OtherEnd ", stream, cpu, number);
        }
        MarkFault::BeyondEnd(number) => {
            put_number_of(out, b"BeyondEnd ", stream, cpu, number);
        }
        MarkFault::NotFinal(number) => {
            put_number_of(out, b"NotFinal ", stream, cpu, number);
        }
        MarkFault::NoMemory => out.put(b"NoMemory"),
    }
}

/// Puts why nothing is made of a piece.
fn put_trouble<W: Sink>(out: &mut Out<'_, W>, trouble: PieceTrouble)
    ensures { Puts (trouble_text trouble) out.old out.new }
{
    match trouble {
        PieceTrouble::Unread(fault) => put_piece_fault(out, fault),
        PieceTrouble::Refused(stream, _, PieceRefusal::Parcel(fault)) => {
            put_refused_parcel(out, stream, fault);
        }
        PieceTrouble::Refused(stream, cpu, PieceRefusal::Mark(fault)) => {
            put_refused_mark(out, stream, cpu, fault);
        }
    }
}

/// Puts the line that says why nothing is made of a piece, with how many bytes and pieces of its input are before it.
pub fn put_fault<W: Sink>(out: &mut Out<'_, W>, at: u64, index: u64, trouble: PieceTrouble)
    ensures { Puts (fault_line at index trouble) out.old out.new }
{
    out.put(b"stream: ");
    put_trouble(out, trouble);
    out.put_numbered(b" at ", at);
    out.put_numbered(b" piece ", index);
    out.put(b"\n");
}
