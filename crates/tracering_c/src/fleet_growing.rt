//! A fleet's listing that goes out while it grows.
ghost use Rattle.std.specs.Prelude.{◌≡◌, ◌≢◌, Some, None};
ghost use Rattle.tracering_c.specs.declared.codes.TheConstants.{DONE, ABSENT, NO_MEMORY};
ghost use Rattle.tracering_c.specs.declared.ends.HeldFleet.{HeldFleet as EndValue};
ghost use Rattle.tracering_c.specs.Held.{fleet_of};
ghost use Rattle.tracering_c.specs.Handles.{SaysAbsent, OnFleet};
ghost use Rattle.tracering_c.specs.FleetCalls.{FrontierSo, IsListedBefore, HasForgotten, HasForgottenSome};

use crate::codes::{ABSENT, DONE, NO_MEMORY};
use crate::fleet_codes::{code_of_frontier, moment_of_frontier};
use crate::handle::FleetHandle;
use library_values::listed_fleet::ListedFleet;
use std::alloc::Global;
use trace_model::Moment;

/// The moment before which no line comes any more.
#[unsafe(no_mangle)]
pub extern "C" fn tracering_raw_fleet_frontier(f: &mut FleetHandle, moment: &mut u64) -> i32
    ensures absent { fleet_of f.old.held.value ≡ None → result ≡ ABSENT }
    ensures moment_stays { fleet_of f.old.held.value ≡ None → moment.new ≡ moment.old }
    ensures frontier { (old : EndValue) → fleet_of f.old.held.value ≡ Some old
        → FrontierSo old.listed moment.old result moment.new }
    ensures stays { fleet_of f.new.held.value ≡ fleet_of f.old.held.value }
{
    if !f.live {
        return ABSENT;
    }
    frontier_of(&f.held.fleet().listed, moment)
}

/// `tracering_raw_fleet_frontier`, of the fleet itself.
fn frontier_of(listed: &ListedFleet, moment: &mut u64) -> i32
    ensures { FrontierSo listed.now moment.old result moment.new }
{
    let found = listed.fleet.frontier();
    *moment = moment_of_frontier(found, *moment);
    code_of_frontier(found)
}

/// Lists what is before the cuts of the CPUs at a moment.
#[unsafe(no_mangle)]
pub extern "C" fn tracering_raw_fleet_list_before(
    alloc: Global,
    f: &mut FleetHandle,
    moment: u64,
    count: &mut usize,
) -> i32
    ensures absent { fleet_of f.old.held.value ≡ None → result ≡ ABSENT }
    ensures listed { OnFleet f.old f.new (λ old new. result ≡ DONE → IsListedBefore old moment count.new new) }
    ensures no_memory { (old : EndValue) → fleet_of f.old.held.value ≡ Some old → result ≢ DONE → result ≡ NO_MEMORY }
    ensures stays { result ≢ DONE → fleet_of f.new.held.value ≡ fleet_of f.old.held.value }
    ensures count_stays { result ≢ DONE → count.new ≡ count.old }
{
    if !f.live {
        return ABSENT;
    }
    list_before(alloc, &mut f.held.fleet().listed, moment, count)
}

/// `tracering_raw_fleet_list_before`, of the fleet itself.
fn list_before(alloc: Global, listed: &mut ListedFleet, moment: u64, count: &mut usize) -> i32
    ensures listed { result ≡ DONE → IsListedBefore listed.old moment count.new listed.new }
    ensures no_memory { result ≢ DONE → result ≡ NO_MEMORY }
    ensures stays { result ≢ DONE → listed.new ≡ listed.old }
    ensures count_stays { result ≢ DONE → count.new ≡ count.old }
{
    let Ok(lines) = listed.list_before(alloc, Moment(moment)) else {
        return NO_MEMORY;
    };
    *count = lines;
    DONE
}

/// Forgets what is before the cuts of the CPUs at a moment.
#[unsafe(no_mangle)]
pub extern "C" fn tracering_raw_fleet_forget_before(f: &mut FleetHandle, moment: u64) -> i32
    ensures absent { SaysAbsent (fleet_of f.old.held.value) result f.old f.new }
    ensures forgotten { OnFleet f.old f.new (λ old new. result ≡ DONE → HasForgotten old moment new) }
    ensures some { OnFleet f.old f.new (λ old new. HasForgottenSome old moment new) }
    ensures no_memory { (old : EndValue) → fleet_of f.old.held.value ≡ Some old → result ≢ DONE → result ≡ NO_MEMORY }
{
    if !f.live {
        return ABSENT;
    }
    forget_before(&mut f.held.fleet().listed, moment)
}

/// `tracering_raw_fleet_forget_before`, of the fleet itself.
fn forget_before(listed: &mut ListedFleet, moment: u64) -> i32
    ensures forgotten { result ≡ DONE → HasForgotten listed.old moment listed.new }
    ensures some { HasForgottenSome listed.old moment listed.new }
    ensures no_memory { result ≢ DONE → result ≡ NO_MEMORY }
{
    match listed.fleet.forget_before(Moment(moment)) {
        Ok(()) => DONE,
        Err(_) => NO_MEMORY,
    }
}
