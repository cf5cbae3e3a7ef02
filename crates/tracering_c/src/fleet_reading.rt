//! What a fleet is asked: its streams, how far each is known, its runs, and its listing.
ghost use Rattle.std.specs.Prelude.{◌≡◌, ◌≢◌, Some, None, IsSome};
ghost use Rattle.stream_collector.specs.Stream.{IsMissing, IsUndelivered, IsUnknownYet};
ghost use Rattle.fleet_collector.specs.Fleet.{known_of, stream_at};
ghost use Rattle.library_values.specs.Cpus.{IsToldOf};
ghost use Rattle.library_values.specs.State.{IsStateOf};
ghost use Rattle.tracering_c.specs.declared.codes.TheConstants.{DONE, ABSENT, NO_MEMORY, NO_ROOM};
ghost use Rattle.tracering_c.specs.declared.ends.HeldFleet.{HeldFleet as EndValue};
ghost use Rattle.tracering_c.specs.Held.{fleet_of};
ghost use Rattle.tracering_c.specs.Handles.{SaysAbsent, OnFleet};
ghost use Rattle.tracering_c.specs.FleetCalls.{GivesLeast, RunsSo, IsListed, NextSo};

use crate::codes::{ABSENT, DONE, NO_MEMORY, NO_ROOM};
use crate::fleet_codes::{
    FleetLine, code_of_found, code_of_found_cpu, code_of_given, next_line_of,
};
use crate::handle::FleetHandle;
use library_values::listed_fleet::{CpuState, ListedFleet};
use library_values::runs::Run;
use parcel_streams::StreamId;
use std::alloc::Global;
use trace_model::CpuId;

/// The least id of a stream that is there, from this one on.
#[unsafe(no_mangle)]
pub extern "C" fn tracering_raw_fleet_next_stream(
    f: &mut FleetHandle,
    from: u64,
    stream: &mut u64,
) -> i32
    ensures absent { fleet_of f.old.held.value ≡ None → result ≡ ABSENT }
    ensures stream_stays { fleet_of f.old.held.value ≡ None → stream.new ≡ stream.old }
    ensures gives { (old : EndValue) → fleet_of f.old.held.value ≡ Some old
        → GivesLeast (λ id. IsSome (known_of old.listed.fleet id)) from stream.old result stream.new }
    ensures stays { fleet_of f.new.held.value ≡ fleet_of f.old.held.value }
{
    if !f.live {
        return ABSENT;
    }
    next_stream_of(&f.held.fleet().listed, from, stream)
}

/// `tracering_raw_fleet_next_stream`, of the fleet itself.
fn next_stream_of(listed: &ListedFleet, from: u64, stream: &mut u64) -> i32
    ensures { GivesLeast (λ id. IsSome (known_of listed.now.fleet id)) from stream.old result stream.new }
{
    let found = listed.next_stream(from);
    *stream = found.unwrap_or(*stream);
    code_of_found(found)
}

/// The least CPU of a stream of which something is there, from this one on.
#[unsafe(no_mangle)]
pub extern "C" fn tracering_raw_fleet_next_cpu(
    alloc: Global,
    f: &mut FleetHandle,
    stream: u64,
    from: u32,
    cpu: &mut u32,
) -> i32
    ensures absent { fleet_of f.old.held.value ≡ None → result ≡ ABSENT }
    ensures cpu_stays { fleet_of f.old.held.value ≡ None → cpu.new ≡ cpu.old }
    ensures gives { (old : EndValue) → fleet_of f.old.held.value ≡ Some old
        → GivesLeast (IsToldOf (stream_at old.listed.fleet stream)) from cpu.old result cpu.new }
    ensures stays { fleet_of f.new.held.value ≡ fleet_of f.old.held.value }
{
    if !f.live {
        return ABSENT;
    }
    next_cpu_of(alloc, &f.held.fleet().listed, stream, from, cpu)
}

/// `tracering_raw_fleet_next_cpu`, of the fleet itself.
fn next_cpu_of(alloc: Global, listed: &ListedFleet, stream: u64, from: u32, cpu: &mut u32) -> i32
    ensures { GivesLeast (IsToldOf (stream_at listed.now.fleet stream)) from cpu.old result cpu.new }
{
    let found = listed.next_cpu(alloc, StreamId(stream), from);
    *cpu = found.unwrap_or(*cpu);
    code_of_found_cpu(found)
}

/// How far a CPU of a stream is known.
#[unsafe(no_mangle)]
pub extern "C" fn tracering_raw_fleet_state(
    alloc: Global,
    f: &mut FleetHandle,
    stream: u64,
    cpu: u32,
    state: &mut CpuState,
) -> i32
    ensures absent { fleet_of f.old.held.value ≡ None → result ≡ ABSENT }
    ensures state_stays { fleet_of f.old.held.value ≡ None → state.new ≡ state.old }
    ensures tells { (old : EndValue) → fleet_of f.old.held.value ≡ Some old
        → IsStateOf (stream_at old.listed.fleet stream) cpu state.new }
    ensures done { (old : EndValue) → fleet_of f.old.held.value ≡ Some old → result ≡ DONE }
    ensures stays { fleet_of f.new.held.value ≡ fleet_of f.old.held.value }
{
    if !f.live {
        return ABSENT;
    }
    *state = f
        .held
        .fleet()
        .listed
        .state(alloc, StreamId(stream), CpuId(cpu));
    DONE
}

/// Puts the runs of a CPU's missing numbers to the front of `out`, as many as it has room for, and counts them all.
#[unsafe(no_mangle)]
pub extern "C" fn tracering_raw_fleet_missing(
    alloc: Global,
    f: &mut FleetHandle,
    stream: u64,
    cpu: u32,
    out: &mut [Run],
    count: &mut usize,
) -> i32
    ensures absent { fleet_of f.old.held.value ≡ None → result ≡ ABSENT }
    ensures out_stays { fleet_of f.old.held.value ≡ None → out.new ≡ out.old }
    ensures count_stays { fleet_of f.old.held.value ≡ None → count.new ≡ count.old }
    ensures misses { (old : EndValue) → fleet_of f.old.held.value ≡ Some old
        → RunsSo (IsMissing (stream_at old.listed.fleet stream) cpu) out.old result out.new count.new }
    ensures stays { fleet_of f.new.held.value ≡ fleet_of f.old.held.value }
{
    if !f.live {
        return ABSENT;
    }
    missing_of(alloc, &f.held.fleet().listed, stream, cpu, out, count)
}

/// `tracering_raw_fleet_missing`, of the fleet itself.
fn missing_of(
    alloc: Global,
    listed: &ListedFleet,
    stream: u64,
    cpu: u32,
    out: &mut [Run],
    count: &mut usize,
) -> i32
    ensures { RunsSo (IsMissing (stream_at listed.now.fleet stream) cpu) out.old result out.new count.new }
{
    let room = out.len();
    *count = listed.put_missing(alloc, StreamId(stream), CpuId(cpu), out);
    code_of_room(room, *count)
}

/// Puts the runs of the unknown numbers of a CPU, as `tracering_raw_fleet_missing` does the missing ones.
#[unsafe(no_mangle)]
pub extern "C" fn tracering_raw_fleet_unknown(
    alloc: Global,
    f: &mut FleetHandle,
    stream: u64,
    cpu: u32,
    out: &mut [Run],
    count: &mut usize,
) -> i32
    ensures absent { fleet_of f.old.held.value ≡ None → result ≡ ABSENT }
    ensures out_stays { fleet_of f.old.held.value ≡ None → out.new ≡ out.old }
    ensures count_stays { fleet_of f.old.held.value ≡ None → count.new ≡ count.old }
    ensures awaits { (old : EndValue) → fleet_of f.old.held.value ≡ Some old
        → RunsSo (IsUnknownYet (stream_at old.listed.fleet stream) cpu) out.old result out.new count.new }
    ensures stays { fleet_of f.new.held.value ≡ fleet_of f.old.held.value }
{
    if !f.live {
        return ABSENT;
    }
    unknown_of(alloc, &f.held.fleet().listed, stream, cpu, out, count)
}

/// `tracering_raw_fleet_unknown`, of the fleet itself.
fn unknown_of(
    alloc: Global,
    listed: &ListedFleet,
    stream: u64,
    cpu: u32,
    out: &mut [Run],
    count: &mut usize,
) -> i32
    ensures { RunsSo (IsUnknownYet (stream_at listed.now.fleet stream) cpu) out.old result out.new count.new }
{
    let room = out.len();
    *count = listed.put_unknown(alloc, StreamId(stream), CpuId(cpu), out);
    code_of_room(room, *count)
}

/// Puts the runs of the undelivered numbers of a CPU, as `tracering_raw_fleet_missing` does the missing ones.
#[unsafe(no_mangle)]
pub extern "C" fn tracering_raw_fleet_undelivered(
    alloc: Global,
    f: &mut FleetHandle,
    stream: u64,
    cpu: u32,
    out: &mut [Run],
    count: &mut usize,
) -> i32
    ensures absent { fleet_of f.old.held.value ≡ None → result ≡ ABSENT }
    ensures out_stays { fleet_of f.old.held.value ≡ None → out.new ≡ out.old }
    ensures count_stays { fleet_of f.old.held.value ≡ None → count.new ≡ count.old }
    ensures gave_up { (old : EndValue) → fleet_of f.old.held.value ≡ Some old
        → RunsSo (IsUndelivered (stream_at old.listed.fleet stream) cpu) out.old result out.new count.new }
    ensures stays { fleet_of f.new.held.value ≡ fleet_of f.old.held.value }
{
    if !f.live {
        return ABSENT;
    }
    undelivered_of(alloc, &f.held.fleet().listed, stream, cpu, out, count)
}

/// `tracering_raw_fleet_undelivered`, of the fleet itself.
fn undelivered_of(
    alloc: Global,
    listed: &ListedFleet,
    stream: u64,
    cpu: u32,
    out: &mut [Run],
    count: &mut usize,
) -> i32
    ensures { RunsSo (IsUndelivered (stream_at listed.now.fleet stream) cpu) out.old result out.new count.new }
{
    let room = out.len();
    *count = listed.put_undelivered(alloc, StreamId(stream), CpuId(cpu), out);
    code_of_room(room, *count)
}

ghost use Rattle.std.specs.Prelude.{cond, ltb};

/// Whether `count` runs have room.
fn code_of_room(room: usize, count: usize) -> i32
    ensures { result ≡ cond (ltb room count) NO_ROOM DONE }
{
    if room < count {
        return NO_ROOM;
    }
    DONE
}

/// Lists what the fleet has now.
#[unsafe(no_mangle)]
pub extern "C" fn tracering_raw_fleet_list(
    alloc: Global,
    f: &mut FleetHandle,
    count: &mut usize,
) -> i32
    ensures absent { fleet_of f.old.held.value ≡ None → result ≡ ABSENT }
    ensures listed { OnFleet f.old f.new (λ old new. result ≡ DONE → IsListed old count.new new) }
    ensures no_memory { (old : EndValue) → fleet_of f.old.held.value ≡ Some old → result ≢ DONE → result ≡ NO_MEMORY }
    ensures stays { result ≢ DONE → fleet_of f.new.held.value ≡ fleet_of f.old.held.value }
    ensures count_stays { result ≢ DONE → count.new ≡ count.old }
{
    if !f.live {
        return ABSENT;
    }
    list_of(alloc, &mut f.held.fleet().listed, count)
}

/// `tracering_raw_fleet_list`, of the fleet itself.
fn list_of(alloc: Global, listed: &mut ListedFleet, count: &mut usize) -> i32
    ensures listed { result ≡ DONE → IsListed listed.old count.new listed.new }
    ensures no_memory { result ≢ DONE → result ≡ NO_MEMORY }
    ensures stays { result ≢ DONE → listed.new ≡ listed.old }
    ensures count_stays { result ≢ DONE → count.new ≡ count.old }
{
    let Ok(lines) = listed.list(alloc) else {
        return NO_MEMORY;
    };
    *count = lines;
    DONE
}

/// Puts the bytes of the next line to the front of `out`.
#[unsafe(no_mangle)]
pub extern "C" fn tracering_raw_fleet_next(
    f: &mut FleetHandle,
    out: &mut [u8],
    line: &mut FleetLine,
) -> i32
    ensures absent { SaysAbsent (fleet_of f.old.held.value) result f.old f.new }
    ensures out_stays { fleet_of f.old.held.value ≡ None → out.new ≡ out.old }
    ensures line_stays { fleet_of f.old.held.value ≡ None → line.new ≡ line.old }
    ensures next { OnFleet f.old f.new (λ old new. NextSo old out.old line.old result out.new line.new new) }
{
    if !f.live {
        return ABSENT;
    }
    next_of(&mut f.held.fleet().listed, out, line)
}

/// `tracering_raw_fleet_next`, of the fleet itself.
fn next_of(listed: &mut ListedFleet, out: &mut [u8], line: &mut FleetLine) -> i32
    ensures { NextSo listed.old out.old line.old result out.new line.new listed.new }
{
    let given = listed.give(out);
    *line = next_line_of(given, *line);
    code_of_given(given)
}
