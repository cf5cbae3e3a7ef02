//! The lines of the page at hand.
ghost use Rattle.std.specs.Prelude.{◌≡◌, ◌++◌, ◌∷◌, [], ℕ, All, length, map, OnOk};
ghost use Rattle.page_borrow.specs.Entries.{numbered_record};
ghost use Rattle.page_numbers.specs.Parcels.{as_parcel};
ghost use Rattle.std.specs.List.{enumerate_from};
ghost use Rattle.time_merge.specs.LineOrder.{line_of};
ghost use Rattle.page_lines.specs.Sources.{line_at, IsWithin};

use capture::CaptureFault;
use page_borrow::Entry;
use page_numbers::Parcel;
use std::alloc::Global;
use std::marker::Model;
use time_merge::Line;
use trace_model::{CpuId, Moment, RecordNo};

/// A record, and where its bytes are.
#[derive(Clone, Copy)]
struct Place {
    moment: Moment,
    number: RecordNo,
    start: usize,
    end: usize,
}

/// The lines of a page's records that are left.
#[derive(Drop)]
pub(crate) struct AtHand {
    cpu: CpuId,
    places: Vec<Place>,
    /// The bytes of all records, one after the other.
    bytes: Vec<u8>,
    /// How many lines were passed.
    at: usize,
}

impl Model for AtHand {
    ghost use Rattle.std.specs.Prelude.{List, All, length, map, drop};
    ghost use Rattle.trace_model.specs.Listing.{Line as ModelLine};
    ghost use Rattle.page_lines.specs.Sources.{line_at, IsWithin};

    ghost Value = { List ModelLine };

    ghost view = { λ a. drop a.at (map (line_at a.cpu.0 a.bytes.items) a.places.items) };

    ghost invariant = { λ a. All (IsWithin (length a.bytes.items)) a.places.items };
}

/// Adds a record under this number.
fn put_record(
    places: &mut Vec<Place>,
    bytes: &mut Vec<u8>,
    number: RecordNo,
    entry: Entry<'_>,
) -> Result<(), CaptureFault>
    ensures bytes { OnOk result (bytes.new.items ≡ bytes.old.items ++ entry.entry.bytes.now) }
    ensures place { OnOk result (places.new.items ≡ places.old.items ++ record {
      moment = entry.entry.moment;
      number = number;
      start = length bytes.old.items;
      end = length bytes.new.items;
    } ∷ []) }
{
    let start = bytes.len();
    bytes.extend_from_slice(entry.bytes)?;
    places.push(Place {
        moment: entry.moment,
        number,
        start,
        end: bytes.len(),
    })?;
    Ok(())
}

/// Puts the records of a parcel, the first of them under this number, in place of what there is.
fn put_records(
    places: &mut Vec<Place>,
    bytes: &mut Vec<u8>,
    first: RecordNo,
    parcel: &Parcel,
) -> Result<(), CaptureFault>
    ensures within { OnOk result (All (IsWithin (length bytes.new.items)) places.new.items) }
    ensures lines { (cpu : ℕ) → OnOk result (map (line_at cpu bytes.new.items) places.new.items
        ≡ map (line_of cpu) (enumerate_from first.0 (as_parcel parcel.now).records)) }
{
    places.clear();
    bytes.clear();
    let mut number = first.0;
    for entry in parcel.records() {
        put_record(places, bytes, RecordNo(number), entry)?;
        number = number.checked_add(1).ok_or(CaptureFault::Numbers)?;
    }
    Ok(())
}

impl AtHand {
    ghost use Rattle.std.specs.Prelude.{◌≡◌, [], drop, map, OnOk};
    ghost use Rattle.std.specs.List.{enumerate_from};
    ghost use Rattle.std.specs.Option.{option_map};
    ghost use Rattle.time_merge.specs.Heads.{first_in};
    ghost use Rattle.time_merge.specs.LineOrder.{line_of};
    ghost use Rattle.time_merge.specs.Lines.{line_seen};
    ghost use Rattle.page_numbers.specs.Parcels.{as_parcel};

    /// No lines.
    pub(crate) fn none(alloc: Global, cpu: CpuId) -> AtHand
        ensures { result ≡ [] }
    {
        AtHand {
            cpu,
            places: Vec::new(alloc),
            bytes: Vec::new(alloc),
            at: 0,
        }
    }

    /// The lines of a parcel's records, the first of them under this number, in place of those that were left. Where
    /// there is no answer, no line is left.
    pub(crate) fn fill(
        &mut self,
        cpu: CpuId,
        first: RecordNo,
        parcel: &Parcel,
    ) -> Result<(), CaptureFault>
        ensures { OnOk result (self.new ≡ map (line_of cpu.0) (enumerate_from first.0 (as_parcel parcel.now).records)) }
    {
        self.cpu = cpu;
        self.at = 0;
        let put = put_records(&mut self.places, &mut self.bytes, first, parcel);
        if put.is_err() {
            self.places.clear();
        }
        put
    }

    /// The first line that is left, if there is one.
    #[inline(always)]
    pub(crate) fn first(&self) -> Option<Line<'_>>
        ensures { option_map line_seen result ≡ first_in self.now }
    {
        if self.at >= self.places.len() {
            return None;
        }
        let place = self.places[self.at];
        Some(Line {
            moment: place.moment,
            cpu: self.cpu,
            number: place.number,
            bytes: &self.bytes[place.start..place.end],
        })
    }

    /// Passes the first line that is left, if there is one.
    #[inline(always)]
    pub(crate) fn pass(&mut self)
        ensures { self.new ≡ drop 1 self.old }
    {
        if self.at < self.places.len() {
            self.at += 1;
        }
    }

    /// Leaves no line.
    pub(crate) fn clear(&mut self)
        ensures { self.new ≡ [] }
    {
        self.places.clear();
        self.bytes.clear();
        self.at = 0;
    }
}
