//! What comes before the data of an image, and the count after it.
ghost use Rattle.std.specs.Prelude.{◌≡◌, ◌≢◌, ℕ, ◌+◌, ◌≤◌, ◌<◌, List, length, drop, IfOk, IfErr};
ghost use Rattle.trace_model.specs.Image.{from_le64, commit_word, commit_of, stores_count as is_count_stored};
ghost use Rattle.trace_model.specs.Image.{ReportsMissed};
ghost use Rattle.trace_model.specs.declared.limits.TheConstants.{MAX_SIZE};
ghost use Rattle.page_image.specs.Images.{missed_of, commit_with, IsCommitWord, HasPartsOf, LacksCount, IsImageFault};

use crate::image::{ImageFault, Missed};
use byteorder::{ByteOrder, LittleEndian};
use trace_model::MAX_IMAGE;

/// How many bytes the header takes: a time and a commit word.
pub(crate) const HEADER: usize = 16;

/// How many bytes a number of the header takes, and the count of missed records.
const NUMBER: usize = 8;

/// Bit 30 of a commit word: a count of missed records is stored. The bits below it are the size of the data.
const STORED: u64 = 1 << 30;

/// Bit 31 of a commit word: records were missed.
const MISSED: u64 = 1 << 31;

/// A commit word. Its bits 32 to 63 mean nothing.
#[derive(Clone, Copy)]
pub(crate) struct Commit {
    /// How many bytes of data there are.
    pub(crate) size: usize,
    /// A count of missed records is stored after the data, if any were missed.
    is_stored: bool,
    /// Records were missed before the page.
    is_missed: bool,
}

/// The header of an image.
#[derive(Clone, Copy)]
pub(crate) struct Header {
    /// The time of the page.
    pub(crate) time: u64,
    pub(crate) commit: Commit,
}

/// The number in the eight bytes at `at`, its lowest byte first.
#[tactic(auto, unfolding(trace_model::specs::Image::from_le64))]
pub fn number_at(bytes: &[u8], at: usize) -> u64
    requires { at + 8 ≤ length bytes.now }
    ensures { result ≡ from_le64 (drop at bytes.now) }
{
    LittleEndian::read_u64(&bytes[at..])
}

/// What a commit word says.
fn commit_in(word: u64) -> Commit
    ensures { IsCommitWord word result }
{
    Commit {
        size: (word % STORED) as usize,
        is_stored: word / STORED % 2 == 1,
        is_missed: word / MISSED % 2 == 1,
    }
}

/// Whether a count of missed records is stored in the image of a page of this size with `end` bytes of records: if any
/// were missed, and eight bytes are left for their count.
#[inline(always)]
pub fn stores_count(end: usize, missed: u64, size: usize) -> bool
    requires limit { size ≤ MAX_SIZE }
    requires end { end ≤ size }
    ensures { (contents : List ℕ) → length contents ≡ end → result ≡ is_count_stored contents missed size }
{
    missed > 0 && end + NUMBER <= size
}

/// The commit word, as a number, of the image of a page of this size with `end` bytes of records, before which `missed`
/// records were missed.
#[inline(always)]
pub fn commit_number(end: usize, missed: u64, size: usize) -> u64
    requires limit { size ≤ MAX_SIZE }
    requires end { end ≤ size }
    ensures { (contents : List ℕ) → length contents ≡ end → result ≡ commit_word (commit_of contents missed size) }
{
    Commit::written(end, missed, size).word()
}

impl Commit {
    /// The commit word of an image that is written: for a page with this size and `end` bytes of records, before
    /// which `missed` records were missed. Their count is stored if there is room for it.
    pub(crate) fn written(end: usize, missed: u64, size: usize) -> Commit
        requires limit { size ≤ MAX_SIZE }
        requires end { end ≤ size }
        ensures commit { (contents : List ℕ) → length contents ≡ end
            → commit_with result 0 ≡ commit_of contents missed size }
        ensures size { result.size ≡ end }
    {
        Commit {
            size: end,
            is_stored: stores_count(end, missed, size),
            is_missed: missed > 0,
        }
    }

    /// Whether a count of missed records is stored after the data, if any were missed.
    pub(crate) fn stores_count(self) -> bool
        ensures { result ≡ self.is_stored }
    {
        self.is_stored
    }

    /// The commit word as a number, with zeros in the bits that mean nothing.
    pub(crate) fn word(self) -> u64
        requires { self.size < STORED }
        ensures { result ≡ commit_word (commit_with self 0) }
    {
        let stored = if self.is_stored { STORED } else { 0 };
        let missed = if self.is_missed { MISSED } else { 0 };
        self.size as u64 + stored + missed
    }
}

/// Reads the header of an image. It is a fault if the image has no header, is too long, or has fewer bytes of data than
/// it states.
pub(crate) fn read_header(bytes: &[u8]) -> Result<Header, ImageFault>
    ensures ok { IfOk result (λ header. HasPartsOf bytes.now header) }
    ensures there { IfOk result (λ header. HEADER + header.commit.size ≤ length bytes.now) }
    ensures fault { IfErr result (λ f. IsImageFault bytes.now f) }
    ensures no_memory { IfErr result (λ f. f ≢ ImageFault.NoMemory) }
{
    if bytes.len() < HEADER {
        return Err(ImageFault::TooShort);
    }
    let time = number_at(bytes, 0);
    let commit = commit_in(number_at(bytes, NUMBER));
    let too_long = bytes.len() > MAX_IMAGE;
    if too_long || bytes.len() - HEADER < commit.size {
        return Err(ImageFault::BadSize);
    }
    Ok(Header { time, commit })
}

/// What is stated of missed records, if these bytes are those after the data.
pub(crate) fn read_missed(commit: Commit, behind: &[u8]) -> Result<Missed, ImageFault>
    ensures reported { IfOk result (λ missed. (ignored : ℕ)
        → ReportsMissed (commit_with commit ignored) behind.now (missed_of missed)) }
    ensures fault { IfErr result (λ f. f ≡ ImageFault.BadCount) }
    ensures lacks { IfErr result (λ f. LacksCount commit behind.now) }
{
    if !commit.is_missed {
        return Ok(Missed::None);
    }
    if !commit.is_stored {
        return Ok(Missed::Unknown);
    }
    if behind.len() < NUMBER {
        return Err(ImageFault::BadCount);
    }
    Ok(Missed::Count(number_at(behind, 0)))
}
