//! The lines of a listing, with bytes of their own: all bytes are in one buffer.
ghost use Rattle.std.specs.Prelude.{◌≡◌};

use std::alloc::Global;
use std::marker::Model;
use trace_model::NoMemory;

/// What a line is besides its bytes, and where these are in the buffer of all bytes.
#[derive(Clone, Copy)]
struct LinePlace<H> {
    head: H,
    /// Where its bytes begin.
    start: usize,
    /// How many there are.
    len: usize,
}

/// Lines whose bytes are copies; what else a line is, is its head. Contracts see the head and the bytes of each.
#[derive(Drop)]
pub struct OwnLines<H> {
    places: Vec<LinePlace<H>>,
    bytes: Vec<u8>,
}

impl<H> Model for OwnLines<H> {
    ghost use Rattle.std.specs.Prelude.{ℕ, List, All, map, length};
    ghost use Rattle.library_values.specs.OwnLines.{line_in, StandsIn};

    ghost Value = { List (H × List ℕ) };

    ghost view = { λ l. map (line_in l.bytes.items) l.places.items };

    ghost invariant = { λ l. All (StandsIn (length l.bytes.items)) l.places.items };
}

impl<H: Copy> OwnLines<H> {
    ghost use Rattle.std.specs.Prelude.{◌≡◌, ◌++◌, ◌∷◌, [], ◌<◌, length, MatchOption, OnOk, IfOk, IfSome};
    ghost use Rattle.std.specs.List.{slice_get};

    /// No line. No memory is taken.
    pub fn new(alloc: Global) -> OwnLines<H>
        ensures { result ≡ [] }
    {
        OwnLines {
            places: Vec::new(alloc),
            bytes: Vec::new(alloc),
        }
    }

    /// No line, with room for `lines` lines of `bytes` bytes in all. Memory is taken twice, however many there are.
    pub(crate) fn with_room(
        alloc: Global,
        lines: usize,
        bytes: usize,
    ) -> Result<OwnLines<H>, NoMemory>
        ensures { IfOk result (λ lines. lines ≡ []) }
    {
        Ok(OwnLines {
            places: Vec::with_capacity(alloc, lines)?,
            bytes: Vec::with_capacity(alloc, bytes)?,
        })
    }

    /// Adds a line with a copy of these bytes after the others.
    pub(crate) fn push(&mut self, head: H, bytes: &[u8]) -> Result<(), NoMemory>
        ensures { OnOk result (self.new ≡ self.old ++ (head, bytes.now) ∷ []) }
    {
        let start = self.bytes.len();
        self.bytes.extend_from_slice(bytes)?;
        self.places.push(LinePlace {
            head,
            start,
            len: bytes.len(),
        })?;
        Ok(())
    }

    /// How many lines there are.
    pub fn len(&self) -> usize
        ensures { result ≡ length self.now }
    {
        self.places.len()
    }

    /// The line at this place, if there is one.
    pub fn get(&self, at: usize) -> Option<(H, &[u8])>
        ensures line { MatchOption result (slice_get self.now at ≡ None)
            (λ line. slice_get self.now at ≡ Some (line.0, line.1.now)) }
        ensures place { IfSome result (λ _. at < usize.MAX) }
    {
        let Some(place) = self.places.get(at) else {
            return None;
        };
        Some((
            place.head,
            &self.bytes[place.start..place.start + place.len],
        ))
    }
}
