//! The calls that make, change and free fleets.
ghost use Rattle.std.specs.Prelude.{◌≡◌, ◌≢◌, ◌<◌, ◌≤◌, Some, None, IsSomeAnd, is_some, true};
ghost use Rattle.trace_model.specs.declared.limits.TheConstants.{MAX_CPUS};
ghost use Rattle.tracering_c.specs.declared.codes.TheConstants.{DONE, IN_USE, NO_MEMORY, BAD_CPU};
ghost use Rattle.tracering_c.specs.declared.ends.HeldFleet.{HeldFleet as EndValue};
ghost use Rattle.tracering_c.specs.Held.{fleet_of};
ghost use Rattle.tracering_c.specs.Zeros.{AreZeros};
ghost use Rattle.tracering_c.specs.Handles.{SaysAbsent, OnFleet};
ghost use Rattle.tracering_c.specs.FleetCalls.{IsEmpty, AddsPieceSo, ForgetsSo, GivesUpSo};

use crate::codes::{ABSENT, BAD_CPU, DONE, IN_USE, NO_MEMORY};
use crate::ends::HeldFleet;
use crate::fleet_codes::{StreamFault, code_of_answer, code_of_marked, used_of};
use crate::handle::FleetHandle;
use library_values::listed_fleet::ListedFleet;
use parcel_streams::StreamId;
use std::alloc::Global;
use trace_model::{CpuId, MAX_CPUS, RecordNo};

/// A fleet of which no stream is there, for a handle that has none.
#[unsafe(no_mangle)]
pub extern "C" fn tracering_raw_fleet_new(alloc: Global, f: &mut FleetHandle) -> i32
    ensures empty { result ≡ DONE → IsSomeAnd (fleet_of f.new.held.value) (λ end. IsEmpty end.listed) }
    ensures stays { result ≢ DONE → f.new ≡ f.old }
    ensures no_memory { fleet_of f.old.held.value ≡ None → result ≢ DONE → result ≡ NO_MEMORY }
    ensures in_use { is_some (fleet_of f.old.held.value) ≡ true → result ≡ IN_USE }
{
    if f.live {
        return IN_USE;
    }
    let listed = ListedFleet::new(alloc);
    let Ok(end) = Box::new(alloc, HeldFleet { listed }) else {
        return NO_MEMORY;
    };
    *f = FleetHandle::of(end);
    DONE
}

/// Adds the piece at the front of the bytes to its stream.
#[unsafe(no_mangle)]
pub extern "C" fn tracering_raw_fleet_add(
    alloc: Global,
    f: &mut FleetHandle,
    bytes: &[u8],
    used: &mut usize,
    at: &mut StreamFault,
) -> i32
    ensures absent { SaysAbsent (fleet_of f.old.held.value) result f.old f.new }
    ensures used_stays { fleet_of f.old.held.value ≡ None → used.new ≡ used.old }
    ensures at_stays { fleet_of f.old.held.value ≡ None → at.new ≡ at.old }
    ensures adds { OnFleet f.old f.new
        (λ old new. AddsPieceSo old bytes.now used.old at.old result used.new at.new new) }
{
    if !f.live {
        return ABSENT;
    }
    add_to(alloc, &mut f.held.fleet().listed, bytes, used, at)
}

/// `tracering_raw_fleet_add`, of the fleet itself.
fn add_to(
    alloc: Global,
    listed: &mut ListedFleet,
    bytes: &[u8],
    used: &mut usize,
    at: &mut StreamFault,
) -> i32
    ensures { AddsPieceSo listed.old bytes.now used.old at.old result used.new at.new listed.new }
{
    let answer = listed.add(alloc, bytes);
    *used = used_of(answer, *used);
    *at = at.of(answer);
    code_of_answer(answer)
}

/// Raises the bound of a CPU of a stream, below which all is accounted for.
#[unsafe(no_mangle)]
pub extern "C" fn tracering_raw_fleet_forget(
    f: &mut FleetHandle,
    stream: u64,
    cpu: u32,
    bound: u64,
    at: &mut StreamFault,
) -> i32
    ensures absent { SaysAbsent (fleet_of f.old.held.value) result f.old f.new }
    ensures at_stays { fleet_of f.old.held.value ≡ None → at.new ≡ at.old }
    ensures forgets { cpu < MAX_CPUS
        → OnFleet f.old f.new (λ old new. ForgetsSo old stream cpu bound at.old result at.new new) }
    ensures bad_cpu { (x : EndValue) → fleet_of f.old.held.value ≡ Some x → MAX_CPUS ≤ cpu → result ≡ BAD_CPU }
    ensures bad_cpu_stays { MAX_CPUS ≤ cpu → f.new ≡ f.old }
    ensures bad_cpu_at { MAX_CPUS ≤ cpu → at.new ≡ at.old }
{
    if !f.live {
        return ABSENT;
    }
    if cpu >= MAX_CPUS {
        return BAD_CPU;
    }
    forget_in(&mut f.held.fleet().listed, stream, cpu, bound, at)
}

/// `tracering_raw_fleet_forget`, of the fleet itself.
fn forget_in(
    listed: &mut ListedFleet,
    stream: u64,
    cpu: u32,
    bound: u64,
    at: &mut StreamFault,
) -> i32
    requires { cpu < MAX_CPUS }
    ensures { ForgetsSo listed.old stream cpu bound at.old result at.new listed.new }
{
    let answer = listed
        .fleet
        .forget(StreamId(stream), CpuId(cpu), RecordNo(bound));
    *at = at.of_marked(stream, cpu, answer);
    code_of_marked(answer)
}

/// Raises the bound of a CPU of a stream, and gives up what is unknown below it.
#[unsafe(no_mangle)]
pub extern "C" fn tracering_raw_fleet_give_up(
    f: &mut FleetHandle,
    stream: u64,
    cpu: u32,
    bound: u64,
    at: &mut StreamFault,
) -> i32
    ensures absent { SaysAbsent (fleet_of f.old.held.value) result f.old f.new }
    ensures at_stays { fleet_of f.old.held.value ≡ None → at.new ≡ at.old }
    ensures gives_up { cpu < MAX_CPUS
        → OnFleet f.old f.new (λ old new. GivesUpSo old stream cpu bound at.old result at.new new) }
    ensures bad_cpu { (x : EndValue) → fleet_of f.old.held.value ≡ Some x → MAX_CPUS ≤ cpu → result ≡ BAD_CPU }
    ensures bad_cpu_stays { MAX_CPUS ≤ cpu → f.new ≡ f.old }
    ensures bad_cpu_at { MAX_CPUS ≤ cpu → at.new ≡ at.old }
{
    if !f.live {
        return ABSENT;
    }
    if cpu >= MAX_CPUS {
        return BAD_CPU;
    }
    give_up_in(&mut f.held.fleet().listed, stream, cpu, bound, at)
}

/// `tracering_raw_fleet_give_up`, of the fleet itself.
fn give_up_in(
    listed: &mut ListedFleet,
    stream: u64,
    cpu: u32,
    bound: u64,
    at: &mut StreamFault,
) -> i32
    requires { cpu < MAX_CPUS }
    ensures { GivesUpSo listed.old stream cpu bound at.old result at.new listed.new }
{
    let answer = listed
        .fleet
        .give_up(StreamId(stream), CpuId(cpu), RecordNo(bound));
    *at = at.of_marked(stream, cpu, answer);
    code_of_marked(answer)
}

/// Frees the fleet: it is freed at most once. That its memory is released is tested, and not proved.
#[unsafe(no_mangle)]
pub extern "C" fn tracering_raw_fleet_free(alloc: Global, f: &mut FleetHandle) -> i32
    ensures absent { SaysAbsent (fleet_of f.old.held.value) result f.old f.new }
    ensures freed { (x : EndValue) → fleet_of f.old.held.value ≡ Some x → result ≡ DONE }
    ensures none { fleet_of f.new.held.value ≡ None }
    ensures cleared { (x : EndValue) → fleet_of f.old.held.value ≡ Some x → AreZeros f.new.held.at f.new.live }
{
    let Some(_end) = f.take_out(alloc) else {
        return ABSENT;
    };
    DONE
}
