//! The header of a region.
ghost use Rattle.std.specs.Prelude.{◌≡◌, ◌≢◌, ◌==◌, ◌≤◌, ◌^◌, IfOk, IfErr, OnOk};
ghost use Rattle.ring_region.specs.Headers.{number_in, header_in, slot_at, HasVersion, HasPages, HasSize, HasCpu};
ghost use Rattle.ring_region.specs.Headers.{HasEnd, IsWhole, IsRegionFault};
ghost use Rattle.ring_region.specs.declared.limits.TheConstants.{PAGES_AT, SIZE_AT, CPU_AT, ENDED_AT};

use crate::faults::RegionFault;
use crate::limits::{
    ALIGN, CPU_AT, ENDED_AT, HEAD, PAGES_AT, SIZE_AT, START, STREAM_AT, TAKEN_AT, VERSION_AT,
};
use page_image::number_at;
use parcel_streams::StreamId;
use trace_model::{CpuId, MAX_CPUS, MAX_PAGES, MAX_SIZE, MIN_PAGES, MIN_SIZE, RecordNo};

/// The letters with which a region begins.
const MAGIC: [u8; 8] = *b"tracring";

/// The version of regions that is read.
const VERSION: u64 = 1;

/// What a region states of its ring.
#[derive(Clone, Copy, Debug, PartialEq, Eq)]
pub struct Header {
    /// How many pages the ring has, without the reader's. There is a slot for each of them, and one for the reader's.
    pub pages: usize,
    /// How many bytes of data a page has.
    pub size: usize,
    /// The CPU whose records these are.
    pub cpu: CpuId,
    /// The stream of its parcels.
    pub stream: StreamId,
    /// The number after the last record of the last page that the reader took; 0 if it took none.
    pub taken: RecordNo,
    /// The writer was done with it: nothing was begun and not ended, and no record followed.
    pub ended: bool,
}

/// Where the slot of this number begins.
pub(crate) fn slot_at(size: usize, number: usize) -> usize
    requires size { size ≤ 2 ^ 16 }
    requires number { number ≤ 2 ^ 16 }
    ensures { result ≡ slot_at size number }
{
    START + (HEAD + size + (ALIGN - 1)) / ALIGN * ALIGN * number
}

/// How many pages the ring has.
fn read_pages(bytes: &[u8]) -> Result<usize, RegionFault>
    requires { HasVersion bytes.now }
    ensures pages { IfOk result (λ pages. pages ≡ number_in bytes.now PAGES_AT) }
    ensures fits { OnOk result (HasPages bytes.now) }
    ensures fault { IfErr result (λ fault. IsRegionFault bytes.now fault) }
    ensures no_memory { IfErr result (λ fault. fault ≢ RegionFault.NoMemory) }
{
    let pages = number_at(bytes, PAGES_AT);
    if pages < MIN_PAGES as u64 || pages > MAX_PAGES as u64 {
        return Err(RegionFault::BadPages);
    }
    Ok(pages as usize)
}

/// How many bytes of data a page has.
fn read_size(bytes: &[u8]) -> Result<usize, RegionFault>
    requires { HasPages bytes.now }
    ensures size { IfOk result (λ size. size ≡ number_in bytes.now SIZE_AT) }
    ensures fits { OnOk result (HasSize bytes.now) }
    ensures fault { IfErr result (λ fault. IsRegionFault bytes.now fault) }
    ensures no_memory { IfErr result (λ fault. fault ≢ RegionFault.NoMemory) }
{
    let size = number_at(bytes, SIZE_AT);
    if size < MIN_SIZE as u64 || size > MAX_SIZE as u64 || size % 4 != 0 {
        return Err(RegionFault::BadSize);
    }
    Ok(size as usize)
}

/// Whose records these are.
fn read_cpu(bytes: &[u8]) -> Result<CpuId, RegionFault>
    requires { HasSize bytes.now }
    ensures cpu { IfOk result (λ cpu. cpu.0 ≡ number_in bytes.now CPU_AT) }
    ensures known { OnOk result (HasCpu bytes.now) }
    ensures fault { IfErr result (λ fault. IsRegionFault bytes.now fault) }
    ensures no_memory { IfErr result (λ fault. fault ≢ RegionFault.NoMemory) }
{
    let cpu = number_at(bytes, CPU_AT);
    if cpu >= u64::from(MAX_CPUS) {
        return Err(RegionFault::BadCpu);
    }
    Ok(CpuId(cpu as u32))
}

/// Whether the ring ended.
fn read_end(bytes: &[u8]) -> Result<bool, RegionFault>
    requires { HasCpu bytes.now }
    ensures end { IfOk result (λ ended. ended ≡ (number_in bytes.now ENDED_AT == 1)) }
    ensures known { OnOk result (HasEnd bytes.now) }
    ensures fault { IfErr result (λ fault. IsRegionFault bytes.now fault) }
    ensures no_memory { IfErr result (λ fault. fault ≢ RegionFault.NoMemory) }
{
    match number_at(bytes, ENDED_AT) {
        0 => Ok(false),
        1 => Ok(true),
        _ => Err(RegionFault::BadEnd),
    }
}

/// What comes before what the header states of the ring.
fn check_version(bytes: &[u8]) -> Result<(), RegionFault>
    ensures version { OnOk result (HasVersion bytes.now) }
    ensures fault { IfErr result (λ fault. IsRegionFault bytes.now fault) }
    ensures no_memory { IfErr result (λ fault. fault ≢ RegionFault.NoMemory) }
{
    if bytes.len() < START {
        return Err(RegionFault::TooShort);
    }
    if !bytes.starts_with(&MAGIC) {
        return Err(RegionFault::NotARegion);
    }
    if number_at(bytes, VERSION_AT) != VERSION {
        return Err(RegionFault::BadVersion);
    }
    Ok(())
}

/// Reads the header, and looks whether all slots are there.
pub(crate) fn read_header(bytes: &[u8]) -> Result<Header, RegionFault>
    ensures header { IfOk result (λ header. header ≡ header_in bytes.now) }
    ensures whole { OnOk result (IsWhole bytes.now) }
    ensures fault { IfErr result (λ fault. IsRegionFault bytes.now fault) }
    ensures no_memory { IfErr result (λ fault. fault ≢ RegionFault.NoMemory) }
{
    check_version(bytes)?;
    let header = Header {
        pages: read_pages(bytes)?,
        size: read_size(bytes)?,
        cpu: read_cpu(bytes)?,
        stream: StreamId(number_at(bytes, STREAM_AT)),
        taken: RecordNo(number_at(bytes, TAKEN_AT)),
        ended: read_end(bytes)?,
    };
    if bytes.len() < slot_at(header.size, header.pages + 1) {
        return Err(RegionFault::TooShort);
    }
    Ok(header)
}
