//! Pieces of a stream, packed into a buffer.
ghost use Rattle.std.specs.Prelude.{◌≡◌, Some, None};
ghost use Rattle.tracering_c.specs.declared.codes.TheConstants.{ABSENT};
ghost use Rattle.tracering_c.specs.declared.ends.HeldFleet.{HeldFleet as EndValue};
ghost use Rattle.tracering_c.specs.Held.{fleet_of};
ghost use Rattle.tracering_c.specs.Packing.{PacksSo, PacksEnd, PacksStream};

use crate::codes::ABSENT;
use crate::fleet_codes::{code_of_packed, len_of_packed};
use crate::handle::FleetHandle;
use library_values::listed_fleet::{ListedFleet, pack_bytes, pack_end};
use parcel_streams::StreamId;
use std::alloc::Global;
use trace_model::CpuId;

/// Puts a parcel, which these bytes are, as a piece of this stream to the front of `out`.
#[unsafe(no_mangle)]
pub extern "C" fn tracering_raw_pack(
    alloc: Global,
    stream: u64,
    bytes: &[u8],
    out: &mut [u8],
    len: &mut usize,
) -> i32
    ensures { PacksSo stream bytes.now out.old len.old result out.new len.new }
{
    let answer = pack_bytes(alloc, StreamId(stream), bytes, out);
    *len = len_of_packed(answer, *len);
    code_of_packed(answer)
}

/// Puts the mark that a CPU of this stream has `count` records to the front of `out`.
#[unsafe(no_mangle)]
pub extern "C" fn tracering_raw_pack_end(
    alloc: Global,
    stream: u64,
    cpu: u32,
    count: u64,
    out: &mut [u8],
    len: &mut usize,
) -> i32
    ensures { PacksEnd stream cpu count out.old len.old result out.new len.new }
{
    let answer = pack_end(alloc, StreamId(stream), CpuId(cpu), count, out);
    *len = len_of_packed(answer, *len);
    code_of_packed(answer)
}

/// Puts what is known of a stream as packed pieces to the front of `out`.
#[unsafe(no_mangle)]
pub extern "C" fn tracering_raw_fleet_pack(
    alloc: Global,
    f: &mut FleetHandle,
    stream: u64,
    out: &mut [u8],
    len: &mut usize,
) -> i32
    ensures absent { fleet_of f.old.held.value ≡ None → result ≡ ABSENT }
    ensures out_stays { fleet_of f.old.held.value ≡ None → out.new ≡ out.old }
    ensures len_stays { fleet_of f.old.held.value ≡ None → len.new ≡ len.old }
    ensures packs { (old : EndValue) → fleet_of f.old.held.value ≡ Some old
        → PacksStream old.listed stream out.old len.old result out.new len.new }
    ensures stays { fleet_of f.new.held.value ≡ fleet_of f.old.held.value }
{
    if !f.live {
        return ABSENT;
    }
    pack_stream(alloc, &f.held.fleet().listed, stream, out, len)
}

/// `tracering_raw_fleet_pack`, of the fleet itself.
fn pack_stream(
    alloc: Global,
    listed: &ListedFleet,
    stream: u64,
    out: &mut [u8],
    len: &mut usize,
) -> i32
    ensures { PacksStream listed.now stream out.old len.old result out.new len.new }
{
    let answer = listed.pack(alloc, StreamId(stream), out);
    *len = len_of_packed(answer, *len);
    code_of_packed(answer)
}
