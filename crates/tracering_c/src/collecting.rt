//! The calls on collectors.
ghost use Rattle.std.specs.Prelude.{◌≡◌, ◌≢◌, ◌↔◌, Some, None, IsSomeAnd, is_some, true};
ghost use Rattle.trace_model.specs.Collection.{IsSame};
ghost use Rattle.tracering_c.specs.declared.codes.TheConstants.{DIFFERENT, DONE, ABSENT, IN_USE, NO_MEMORY};
ghost use Rattle.tracering_c.specs.declared.ends.HeldCollector.{HeldCollector as EndValue};
ghost use Rattle.tracering_c.specs.Held.{collector_of};
ghost use Rattle.tracering_c.specs.Zeros.{AreZeros};
ghost use Rattle.tracering_c.specs.Handles.{SaysAbsent, OnCollector};
ghost use Rattle.tracering_c.specs.CollectorCalls.{IsEmpty, AddsBytes, MissesSo, IsListed, NextSo};

use crate::codes::{
    ABSENT, DIFFERENT, DONE, IN_USE, NO_MEMORY, NO_ROOM, code_of_add, code_of_given,
};
use crate::collected::{FaultAt, Listed};
use crate::ends::HeldCollector;
use crate::handle::CollectorHandle;
use library_values::listed_collector::ListedCollector;
use library_values::runs::Run;
use std::alloc::Global;
use trace_model::CpuId;

/// A collector without a parcel, for a handle that has none.
#[unsafe(no_mangle)]
pub extern "C" fn tracering_raw_collector_new(alloc: Global, c: &mut CollectorHandle) -> i32
    ensures empty { result ≡ DONE → IsSomeAnd (collector_of c.new.held.value) (λ end. IsEmpty end.listed) }
    ensures stays { result ≢ DONE → c.new ≡ c.old }
    ensures no_memory { collector_of c.old.held.value ≡ None → result ≢ DONE → result ≡ NO_MEMORY }
    ensures in_use { is_some (collector_of c.old.held.value) ≡ true → result ≡ IN_USE }
{
    if c.live {
        return IN_USE;
    }
    let listed = ListedCollector::new(alloc);
    let Ok(end) = Box::new(alloc, HeldCollector { listed }) else {
        return NO_MEMORY;
    };
    *c = CollectorHandle::of(end);
    DONE
}

/// Reads a parcel from its bytes, and adds it.
#[unsafe(no_mangle)]
pub extern "C" fn tracering_raw_collector_add(
    alloc: Global,
    c: &mut CollectorHandle,
    bytes: &[u8],
    at: &mut FaultAt,
) -> i32
    ensures absent { SaysAbsent (collector_of c.old.held.value) result c.old c.new }
    ensures at_stays { collector_of c.old.held.value ≡ None → at.new ≡ at.old }
    ensures adds { OnCollector c.old c.new (λ old new. AddsBytes old bytes.now at.old result at.new new) }
{
    if !c.live {
        return ABSENT;
    }
    add_to(alloc, &mut c.held.collector().listed, bytes, at)
}

/// `tracering_raw_collector_add`, of the collector itself.
fn add_to(alloc: Global, listed: &mut ListedCollector, bytes: &[u8], at: &mut FaultAt) -> i32
    ensures { AddsBytes listed.old bytes.now at.old result at.new listed.new }
{
    let answer = listed.add(alloc, bytes);
    *at = FaultAt::of(answer, *at);
    code_of_add(answer)
}

/// Puts the runs of a CPU's missing numbers to the front of `out`, as many as it has room for, and counts them all.
#[unsafe(no_mangle)]
pub extern "C" fn tracering_raw_collector_missing(
    c: &mut CollectorHandle,
    cpu: u32,
    out: &mut [Run],
    count: &mut usize,
) -> i32
    ensures absent { collector_of c.old.held.value ≡ None → result ≡ ABSENT }
    ensures out_stays { collector_of c.old.held.value ≡ None → out.new ≡ out.old }
    ensures count_stays { collector_of c.old.held.value ≡ None → count.new ≡ count.old }
    ensures misses { (old : EndValue) → collector_of c.old.held.value ≡ Some old
        → MissesSo old.listed.collector cpu out.old result out.new count.new }
    ensures stays { collector_of c.new.held.value ≡ collector_of c.old.held.value }
{
    if !c.live {
        return ABSENT;
    }
    missing_of(&c.held.collector().listed, cpu, out, count)
}

/// `tracering_raw_collector_missing`, of the collector itself.
fn missing_of(listed: &ListedCollector, cpu: u32, out: &mut [Run], count: &mut usize) -> i32
    ensures { MissesSo listed.now.collector cpu out.old result out.new count.new }
{
    let room = out.len();
    *count = listed.put_missing(CpuId(cpu), out);
    if room < *count {
        return NO_ROOM;
    }
    DONE
}

/// Lists what the collector has now.
#[unsafe(no_mangle)]
pub extern "C" fn tracering_raw_collector_list(
    alloc: Global,
    c: &mut CollectorHandle,
    count: &mut usize,
) -> i32
    ensures absent { collector_of c.old.held.value ≡ None → result ≡ ABSENT }
    ensures listed { OnCollector c.old c.new (λ old new. result ≡ DONE → IsListed old count.new new) }
    ensures no_memory { (old : EndValue) → collector_of c.old.held.value ≡ Some old
        → result ≢ DONE → result ≡ NO_MEMORY }
    ensures stays { result ≢ DONE → collector_of c.new.held.value ≡ collector_of c.old.held.value }
    ensures count_stays { result ≢ DONE → count.new ≡ count.old }
{
    if !c.live {
        return ABSENT;
    }
    list_of(alloc, &mut c.held.collector().listed, count)
}

/// `tracering_raw_collector_list`, of the collector itself.
fn list_of(alloc: Global, listed: &mut ListedCollector, count: &mut usize) -> i32
    ensures listed { result ≡ DONE → IsListed listed.old count.new listed.new }
    ensures no_memory { result ≢ DONE → result ≡ NO_MEMORY }
    ensures stays { result ≢ DONE → listed.new ≡ listed.old }
    ensures count_stays { result ≢ DONE → count.new ≡ count.old }
{
    let Ok(lines) = listed.list(alloc) else {
        return NO_MEMORY;
    };
    *count = lines;
    DONE
}

/// Puts the bytes of the next line to the front of `out`.
#[unsafe(no_mangle)]
pub extern "C" fn tracering_raw_collector_next(
    c: &mut CollectorHandle,
    out: &mut [u8],
    line: &mut Listed,
) -> i32
    ensures absent { SaysAbsent (collector_of c.old.held.value) result c.old c.new }
    ensures out_stays { collector_of c.old.held.value ≡ None → out.new ≡ out.old }
    ensures line_stays { collector_of c.old.held.value ≡ None → line.new ≡ line.old }
    ensures next { OnCollector c.old c.new (λ old new. NextSo old out.old line.old result out.new line.new new) }
{
    if !c.live {
        return ABSENT;
    }
    next_of(&mut c.held.collector().listed, out, line)
}

/// `tracering_raw_collector_next`, of the collector itself.
fn next_of(listed: &mut ListedCollector, out: &mut [u8], line: &mut Listed) -> i32
    ensures { NextSo listed.old out.old line.old result out.new line.new listed.new }
{
    let given = listed.give(out);
    *line = Listed::of(given, *line);
    code_of_given(given)
}

/// Whether two collectors have and miss the same.
#[unsafe(no_mangle)]
pub extern "C" fn tracering_raw_collector_same(
    c: &mut CollectorHandle,
    other: &mut CollectorHandle,
) -> i32
    ensures absent { collector_of c.old.held.value ≡ None → result ≡ ABSENT }
    ensures other_absent { collector_of other.old.held.value ≡ None → result ≡ ABSENT }
    ensures same { (left : EndValue) (right : EndValue)
        → collector_of c.old.held.value ≡ Some left → collector_of other.old.held.value ≡ Some right
        → result ≡ DONE ↔ IsSame left.listed.collector right.listed.collector }
    ensures different { (left : EndValue) (right : EndValue)
        → collector_of c.old.held.value ≡ Some left → collector_of other.old.held.value ≡ Some right
        → result ≢ DONE → result ≡ DIFFERENT }
    ensures stays { collector_of c.new.held.value ≡ collector_of c.old.held.value }
    ensures other_stays { collector_of other.new.held.value ≡ collector_of other.old.held.value }
{
    if !c.live || !other.live {
        return ABSENT;
    }
    same_of(&c.held.collector().listed, &other.held.collector().listed)
}

/// `tracering_raw_collector_same`, of the collectors themselves.
fn same_of(left: &ListedCollector, right: &ListedCollector) -> i32
    ensures same { result ≡ DONE ↔ IsSame left.now.collector right.now.collector }
    ensures different { result ≢ DONE → result ≡ DIFFERENT }
{
    if left.collector.same(&right.collector) {
        return DONE;
    }
    DIFFERENT
}

/// Frees the collector: it is freed at most once. That its memory is released is tested, and not proved.
#[unsafe(no_mangle)]
pub extern "C" fn tracering_raw_collector_free(alloc: Global, c: &mut CollectorHandle) -> i32
    ensures absent { SaysAbsent (collector_of c.old.held.value) result c.old c.new }
    ensures freed { (x : EndValue) → collector_of c.old.held.value ≡ Some x → result ≡ DONE }
    ensures none { collector_of c.new.held.value ≡ None }
    ensures cleared { (x : EndValue) → collector_of c.old.held.value ≡ Some x → AreZeros c.new.held.at c.new.live }
{
    let Some(_end) = c.take_out(alloc) else {
        return ABSENT;
    };
    DONE
}
