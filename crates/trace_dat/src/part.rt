//! Parts of a file, and the fields at their fronts.
ghost use Rattle.std.specs.Prelude.{◌≡◌, ◌+◌, ◌<◌, ◌≤◌, ◌^◌, ◌==◌, length, take, drop, position, IfOk, IsTrue, nat_eq};

use crate::fault::{Cause, Fault, ReadError};

/// A part of a file: its bytes, and the offset in the file at which they begin.
#[derive(Clone, Copy)]
pub(crate) struct Part<'a> {
    /// The offset of the first byte in the file.
    pub(crate) at: usize,
    /// The bytes.
    pub(crate) bytes: &'a [u8],
    ghost bounded: { at + length bytes.now < 2 ^ 63 },
}

/// What a file has of a range of its bytes.
#[derive(Clone, Copy)]
pub(crate) struct Extent<'a> {
    /// The bytes that it has.
    pub(crate) bytes: &'a [u8],
    /// What is wrong if the file ends before the range does.
    pub(crate) fault: Option<Fault>,
}

/// What a file has of this many bytes from an offset on.
fn bytes_from(file: &[u8], offset: usize, size: usize) -> &[u8]
    ensures { result.now ≡ take size (drop offset file.now) }
{
    if file.len() < offset {
        return &[];
    }
    let there = &file[offset..];
    &there[..size.min(there.len())]
}

/// The place of the first zero byte, if there is one.
fn zero_at(bytes: &[u8]) -> Option<usize>
    ensures { result ≡ position (λ b. b == 0) bytes.now }
{
    bytes.iter().position(|byte| *byte == 0)
}

impl<'a> Part<'a> {
    ghost use Rattle.std.specs.List.{starts_with};
    ghost use Rattle.std.specs.Int.{w16, w32, w64};
    ghost use Rattle.trace_dat.specs.Parts.{seen, extent_seen};
    ghost use Rattle.trace_dat.specs.Fields.{Gives, behind, front, part_at, number_at, block_at, text_at, expected_at};
    ghost use Rattle.trace_dat.specs.Fields.{pointed_at, extent_of, range_at};
    ghost use Rattle.trace_dat.specs.TracedKernel.{before_zero};

    /// The fault of this cause at the front.
    pub(crate) fn fault(self, cause: Cause) -> ReadError
        ensures { result ≡ ReadError.Fault (record { cause = cause; at = self.entry.at }) }
    {
        ReadError::Fault(Fault { cause, at: self.at })
    }

    /// Whether these bytes are at the front.
    pub(crate) fn begins(self, bytes: &[u8]) -> bool
        ensures gives { result ≡ starts_with nat_eq self.entry.bytes.now bytes.now }
        ensures within { IsTrue result → length bytes.now ≤ length self.entry.bytes.now }
    {
        self.bytes.starts_with(bytes)
    }

    /// The part without its first bytes.
    pub(crate) fn behind(self, len: usize) -> Part<'a>
        requires { len ≤ length self.bytes.now }
        ensures { seen result ≡ behind len (seen self.entry) }
    {
        Part {
            at: self.at + len,
            bytes: &self.bytes[len..],
        }
    }

    /// The first bytes of the part.
    fn front(self, len: usize) -> Part<'a>
        requires { len ≤ length self.bytes.now }
        ensures { seen result ≡ front len (seen self.entry) }
    {
        Part {
            at: self.at,
            bytes: &self.bytes[..len],
        }
    }

    /// The first bytes as a part of their own, and what is after them.
    #[tactic(auto, unfolding(crate::specs::Fields::part_at))]
    pub(crate) fn part(self, len: usize) -> Result<(Part<'a>, Part<'a>), ReadError>
        ensures gives { Gives (λ x. (seen x.0, seen x.1)) result (part_at len (seen self.entry)) }
        ensures shorter { IfOk result (λ x. length x.1.bytes.now ≤ length self.entry.bytes.now) }
    {
        if self.bytes.len() < len {
            return Err(self.fault(Cause::Cut));
        }
        Ok((self.front(len), self.behind(len)))
    }

    /// The number of 16 bits at the front.
    #[tactic(auto, unfolding(crate::specs::Fields::number_at, crate::specs::Fields::part_at))]
    pub(crate) fn number16(self) -> Result<(u16, Part<'a>), ReadError>
        ensures gives { Gives (λ x. (x.0, seen x.1)) result (number_at w16 (seen self.entry)) }
        ensures shorter { IfOk result (λ x. length x.1.bytes.now < length self.entry.bytes.now) }
    {
        match self.bytes {
            [a, b, ..] => Ok((u16::from_le_bytes([*a, *b]), self.behind(2))),
            _ => Err(self.fault(Cause::Cut)),
        }
    }

    /// The number of 32 bits at the front.
    #[tactic(auto, unfolding(crate::specs::Fields::number_at, crate::specs::Fields::part_at))]
    pub(crate) fn number32(self) -> Result<(u32, Part<'a>), ReadError>
        ensures gives { Gives (λ x. (x.0, seen x.1)) result (number_at w32 (seen self.entry)) }
        ensures shorter { IfOk result (λ x. length x.1.bytes.now < length self.entry.bytes.now) }
    {
        match self.bytes {
            [a, b, c, d, ..] => Ok((u32::from_le_bytes([*a, *b, *c, *d]), self.behind(4))),
            _ => Err(self.fault(Cause::Cut)),
        }
    }

    /// The number of 64 bits at the front.
    #[tactic(auto, unfolding(crate::specs::Fields::number_at, crate::specs::Fields::part_at))]
    pub(crate) fn number64(self) -> Result<(u64, Part<'a>), ReadError>
        ensures gives { Gives (λ x. (x.0, seen x.1)) result (number_at w64 (seen self.entry)) }
        ensures shorter { IfOk result (λ x. length x.1.bytes.now < length self.entry.bytes.now) }
    {
        match self.bytes {
            [a, b, c, d, e, f, g, h, ..] => Ok((
                u64::from_le_bytes([*a, *b, *c, *d, *e, *f, *g, *h]),
                self.behind(8),
            )),
            _ => Err(self.fault(Cause::Cut)),
        }
    }

    /// A length of 32 bits, and as many bytes.
    #[tactic(auto, unfolding(crate::specs::Fields::block_at))]
    pub(crate) fn block32(self) -> Result<(Part<'a>, Part<'a>), ReadError>
        ensures gives { Gives (λ x. (seen x.0, seen x.1)) result (block_at w32 (seen self.entry)) }
        ensures shorter { IfOk result (λ x. length x.1.bytes.now < length self.entry.bytes.now) }
    {
        let (len, behind) = self.number32()?;
        behind.part(len as usize)
    }

    /// A length of 64 bits, and as many bytes.
    #[tactic(auto, unfolding(crate::specs::Fields::block_at))]
    pub(crate) fn block64(self) -> Result<(Part<'a>, Part<'a>), ReadError>
        ensures gives { Gives (λ x. (seen x.0, seen x.1)) result (block_at w64 (seen self.entry)) }
        ensures shorter { IfOk result (λ x. length x.1.bytes.now < length self.entry.bytes.now) }
    {
        let (len, behind) = self.number64()?;
        behind.part(len as usize)
    }

    /// The text at the front, without the zero byte that ends it.
    #[tactic(auto, unfolding(crate::specs::Fields::text_at))]
    pub(crate) fn text(self) -> Result<(&'a [u8], Part<'a>), ReadError>
        ensures { Gives (λ x. (x.0.now, seen x.1)) result (text_at (seen self.entry)) }
    {
        match zero_at(self.bytes) {
            Some(len) => Ok((&self.bytes[..len], self.behind(len + 1))),
            None => Err(self.fault(Cause::Cut)),
        }
    }

    /// The bytes up to the first zero byte, or all of them if none is zero.
    pub(crate) fn before_zero(self) -> &'a [u8]
        ensures { result.now ≡ before_zero self.entry.bytes.now }
    {
        match zero_at(self.bytes) {
            Some(len) => &self.bytes[..len],
            None => self.bytes,
        }
    }

    /// What is after these bytes, which should be at the front.
    #[tactic(auto, unfolding(crate::specs::Fields::expected_at))]
    pub(crate) fn expected(self, bytes: &[u8], cause: Cause) -> Result<Part<'a>, ReadError>
        ensures { Gives seen result (expected_at bytes.now cause (seen self.entry)) }
    {
        if !self.begins(bytes) {
            return Err(self.fault(cause));
        }
        Ok(self.behind(bytes.len()))
    }

    /// The part of the file to which the pointer at the front points, and what is after the pointer.
    #[tactic(auto, unfolding(crate::specs::Fields::pointed_at))]
    pub(crate) fn pointed(self, file: &'a [u8]) -> Result<(Part<'a>, Part<'a>), ReadError>
        ensures gives { Gives (λ x. (seen x.0, seen x.1)) result (pointed_at file.now (seen self.entry)) }
        ensures within { IfOk result (λ x. x.0.at ≤ length file.now) }
    {
        let (offset, behind) = self.number64()?;
        let offset = offset as usize;
        if file.len() < offset {
            return Err(self.fault(Cause::OutsideFile));
        }
        let pointed = Part {
            at: offset,
            bytes: &file[offset..],
        };
        Ok((pointed, behind))
    }

    /// What a file has of the range that is stated at the front.
    fn extent(self, file: &'a [u8], offset: usize, size: usize) -> Extent<'a>
        ensures { extent_seen result ≡ extent_of file.now self.entry.at offset size }
    {
        let is_cut = file.len() < offset || file.len() - offset < size;
        Extent {
            bytes: bytes_from(file, offset, size),
            fault: is_cut.then_some(Fault {
                cause: Cause::OutsideFile,
                at: self.at,
            }),
        }
    }

    /// What the file has of the range at the front, and what is after the range.
    #[tactic(auto, unfolding(crate::specs::Fields::range_at))]
    pub(crate) fn range(self, file: &'a [u8]) -> Result<(Extent<'a>, Part<'a>), ReadError>
        ensures { Gives (λ x. (extent_seen x.0, seen x.1)) result (range_at file.now (seen self.entry)) }
    {
        let (offset, behind) = self.number64()?;
        let (size, behind) = behind.number64()?;
        Ok((self.extent(file, offset as usize, size as usize), behind))
    }
}
