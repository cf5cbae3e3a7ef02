//! The calls on two fleets.
ghost use Rattle.std.specs.Prelude.{◌≡◌, ◌≢◌, ◌↔◌, Some, None, IsSomeAnd};
ghost use Rattle.fleet_collector.specs.Merging.{IsSameFleet};
ghost use Rattle.tracering_c.specs.declared.codes.TheConstants.{DIFFERENT, DONE, ABSENT};
ghost use Rattle.tracering_c.specs.declared.ends.HeldFleet.{HeldFleet as EndValue};
ghost use Rattle.tracering_c.specs.Held.{fleet_of};
ghost use Rattle.tracering_c.specs.FleetCalls.{MergesSo};

use crate::codes::{ABSENT, DIFFERENT, DONE};
use crate::fleet_codes::{StreamFault, code_of_merged};
use crate::handle::FleetHandle;
use library_values::listed_fleet::ListedFleet;

/// Adds all that another fleet knows.
#[unsafe(no_mangle)]
pub extern "C" fn tracering_raw_fleet_merge(
    f: &mut FleetHandle,
    other: &mut FleetHandle,
    at: &mut StreamFault,
) -> i32
    ensures absent { fleet_of f.old.held.value ≡ None → result ≡ ABSENT }
    ensures other_absent { fleet_of other.old.held.value ≡ None → result ≡ ABSENT }
    ensures merges { (left : EndValue) (right : EndValue)
        → fleet_of f.old.held.value ≡ Some left → fleet_of other.old.held.value ≡ Some right
        → IsSomeAnd (fleet_of f.new.held.value)
        (λ new. MergesSo left.listed right.listed at.old result at.new new.listed) }
    ensures absent_stays { fleet_of f.old.held.value ≡ None → f.new ≡ f.old }
    ensures stays { fleet_of other.old.held.value ≡ None → f.new ≡ f.old }
    ensures at_stays { fleet_of f.old.held.value ≡ None → at.new ≡ at.old }
    ensures at_stays_too { fleet_of other.old.held.value ≡ None → at.new ≡ at.old }
    ensures other_stays { fleet_of other.new.held.value ≡ fleet_of other.old.held.value }
{
    if !f.live || !other.live {
        return ABSENT;
    }
    merge_of(&mut f.held.fleet().listed, &other.held.fleet().listed, at)
}

/// `tracering_raw_fleet_merge`, of the fleets themselves.
fn merge_of(listed: &mut ListedFleet, other: &ListedFleet, at: &mut StreamFault) -> i32
    ensures { MergesSo listed.old other.now at.old result at.new listed.new }
{
    let fault = listed.merge(other);
    *at = at.of_merged(fault);
    code_of_merged(fault)
}

/// Whether two fleets know the same.
#[unsafe(no_mangle)]
pub extern "C" fn tracering_raw_fleet_same(f: &mut FleetHandle, other: &mut FleetHandle) -> i32
    ensures absent { fleet_of f.old.held.value ≡ None → result ≡ ABSENT }
    ensures other_absent { fleet_of other.old.held.value ≡ None → result ≡ ABSENT }
    ensures same { (left : EndValue) (right : EndValue)
        → fleet_of f.old.held.value ≡ Some left → fleet_of other.old.held.value ≡ Some right
        → result ≡ DONE ↔ IsSameFleet left.listed.fleet right.listed.fleet }
    ensures different { (left : EndValue) (right : EndValue)
        → fleet_of f.old.held.value ≡ Some left → fleet_of other.old.held.value ≡ Some right
        → result ≢ DONE → result ≡ DIFFERENT }
    ensures stays { fleet_of f.new.held.value ≡ fleet_of f.old.held.value }
    ensures other_stays { fleet_of other.new.held.value ≡ fleet_of other.old.held.value }
{
    if !f.live || !other.live {
        return ABSENT;
    }
    same_of(&f.held.fleet().listed, &other.held.fleet().listed)
}

/// `tracering_raw_fleet_same`, of the fleets themselves.
fn same_of(left: &ListedFleet, right: &ListedFleet) -> i32
    ensures same { result ≡ DONE ↔ IsSameFleet left.now.fleet right.now.fleet }
    ensures different { result ≢ DONE → result ≡ DIFFERENT }
{
    if left.fleet.same(&right.fleet) {
        return DONE;
    }
    DIFFERENT
}
