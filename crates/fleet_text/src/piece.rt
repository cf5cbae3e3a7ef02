//! The lines of pieces.
ghost use Rattle.std.specs.Prelude.{◌≡◌};
ghost use Rattle.text_values.specs.Putting.{Puts};
ghost use Rattle.page_numbers.specs.Parcels.{as_parcel};
ghost use Rattle.parcel_streams.specs.Answers.{piece_seen};
ghost use Rattle.fleet_text.specs.Pieces.{place_text, json_place, mark_name, mark_numbers, json_mark_numbers};
ghost use Rattle.fleet_text.specs.Pieces.{mark_text, json_mark, parcel_text, json_parcel, piece_text, json_piece};
ghost use Rattle.fleet_text.specs.Pieces.{piece_line};

use crate::lines::{put_cpu, put_json_cpu};
use capture_text::Form;
use command_io::Sink;
use page_numbers::Parcel;
use parcel_streams::{Mark, Piece, StreamId};
use text_values::Out;
use trace_model::CpuId;

/// Where a piece is.
#[derive(Clone, Copy, Debug, PartialEq, Eq)]
pub struct PiecePlace {
    /// How many inputs are before the one that has it.
    pub input: usize,
    /// How many bytes of that input are before it.
    pub at: u64,
    /// How many bytes it has.
    pub length: usize,
}

/// Puts where a piece is, as text.
fn put_place<W: Sink>(out: &mut Out<'_, W>, place: PiecePlace)
    ensures { Puts (place_text place.input place.at place.length) out.old out.new }
{
    out.put_number(place.input as u64);
    out.put_numbered(b" ", place.at);
    out.put_numbered(b" ", place.length as u64);
}

/// Puts where a piece is, as members of an object.
fn put_json_place<W: Sink>(out: &mut Out<'_, W>, place: PiecePlace)
    ensures { Puts (json_place place.input place.at place.length) out.old out.new }
{
    out.put_numbered(b"\"input\":", place.input as u64);
    out.put_numbered(b",\"offset\":", place.at);
    out.put_numbered(b",\"length\":", place.length as u64);
}

/// Puts a parcel as text.
fn put_parcel<W: Sink>(out: &mut Out<'_, W>, stream: StreamId, parcel: &Parcel)
    ensures { Puts (parcel_text stream.0 (as_parcel parcel.now)) out.old out.new }
{
    out.put(b"parcel ");
    put_cpu(out, stream, parcel.cpu());
    out.put_numbered(b" fill ", parcel.fill().0);
    out.put_numbered(b" first ", parcel.first().0);
    out.put_numbered(b" count ", parcel.count());
    out.put_numbered(b" missed ", parcel.missed());
}

/// Puts a parcel as members of an object.
fn put_json_parcel<W: Sink>(out: &mut Out<'_, W>, stream: StreamId, parcel: &Parcel)
    ensures { Puts (json_parcel stream.0 (as_parcel parcel.now)) out.old out.new }
{
    put_json_cpu(out, stream, parcel.cpu());
    out.put_numbered(b",\"fill\":", parcel.fill().0);
    out.put_numbered(b",\"first\":", parcel.first().0);
    out.put_numbered(b",\"count\":", parcel.count());
    out.put_numbered(b",\"missed\":", parcel.missed());
}

/// The word for what a mark says.
fn mark_name(mark: Mark) -> &'static [u8]
    ensures { result.now ≡ mark_name mark }
{
    match mark {
        Mark::End(_) => b"end",
        Mark::Forgotten(_) => b"forgotten",
        Mark::Undelivered(_, _) => b"undelivered",
    }
}

/// Puts the numbers of a mark as text.
fn put_mark_numbers<W: Sink>(out: &mut Out<'_, W>, mark: Mark)
    ensures { Puts (mark_numbers mark) out.old out.new }
{
    match mark {
        Mark::End(count) => out.put_number(count),
        Mark::Forgotten(bound) => out.put_number(bound),
        Mark::Undelivered(first, end) => {
            out.put_number(first);
            out.put_numbered(b"-", end.saturating_sub(1));
        }
    }
}

/// Puts the numbers of a mark as JSON.
fn put_json_mark_numbers<W: Sink>(out: &mut Out<'_, W>, mark: Mark)
    ensures { Puts (json_mark_numbers mark) out.old out.new }
{
    match mark {
        Mark::End(count) => out.put_number(count),
        Mark::Forgotten(bound) => out.put_number(bound),
        Mark::Undelivered(first, end) => {
            out.put_numbered(b"[", first);
            out.put_numbered(b",", end.saturating_sub(1));
            out.put(b"]");
        }
    }
}

/// Puts a mark as text.
fn put_mark<W: Sink>(out: &mut Out<'_, W>, stream: StreamId, cpu: CpuId, mark: Mark)
    ensures { Puts (mark_text stream.0 cpu.0 mark) out.old out.new }
{
    out.put(mark_name(mark));
    out.put(b" ");
    put_cpu(out, stream, cpu);
    out.put(b" ");
    put_mark_numbers(out, mark);
}

/// Puts a mark as members of an object.
fn put_json_mark<W: Sink>(out: &mut Out<'_, W>, stream: StreamId, cpu: CpuId, mark: Mark)
    ensures { Puts (json_mark stream.0 cpu.0 mark) out.old out.new }
{
    put_json_cpu(out, stream, cpu);
    out.put(b",\"");
    out.put(mark_name(mark));
    out.put(b"\":");
    put_json_mark_numbers(out, mark);
}

/// Puts what a piece says as text.
fn put_text<W: Sink>(out: &mut Out<'_, W>, piece: &Piece)
    ensures { Puts (piece_text (piece_seen piece.now)) out.old out.new }
{
    match piece {
        Piece::Parcel(stream, parcel) => put_parcel(out, *stream, parcel),
        Piece::Mark(stream, cpu, mark) => put_mark(out, *stream, *cpu, *mark),
    }
}

/// Puts what a piece says as members of an object.
fn put_json<W: Sink>(out: &mut Out<'_, W>, piece: &Piece)
    ensures { Puts (json_piece (piece_seen piece.now)) out.old out.new }
{
    match piece {
        Piece::Parcel(stream, parcel) => put_json_parcel(out, *stream, parcel),
        Piece::Mark(stream, cpu, mark) => put_json_mark(out, *stream, *cpu, *mark),
    }
}

/// Puts the line of a piece.
pub fn put_piece<W: Sink>(out: &mut Out<'_, W>, form: Form, place: PiecePlace, piece: &Piece)
    ensures { Puts (piece_line form place.input place.at place.length (piece_seen piece.now)) out.old out.new }
{
    match form {
        Form::Text => {
            put_place(out, place);
            out.put(b" ");
            put_text(out, piece);
            out.put(b"\n");
        }
        Form::Json => {
            out.put(b"{");
            put_json_place(out, place);
            out.put(b",");
            put_json(out, piece);
            out.put(b"}\n");
        }
    }
}
