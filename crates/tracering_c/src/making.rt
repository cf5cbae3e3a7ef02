//! A new ring; and its ends, freed.
ghost use Rattle.std.specs.Prelude.{◌≡◌, ◌≢◌, ◌<◌, ◌↔◌, [], Some, None, IfOk, IsSomeAnd, is_some, true};
ghost use Rattle.trace_model.specs.declared.limits.TheConstants.{MAX_CPUS, START_FILL};
ghost use Rattle.trace_model.specs.Ring.{HasRingLimits};
ghost use Rattle.ring_shared.specs.NewEnds.{AreNewEnds};
ghost use Rattle.ring_shared.specs.Calls.{IsWriter};
ghost use Rattle.tracering_c.specs.declared.codes.TheConstants.{DONE, IN_USE};
ghost use Rattle.tracering_c.specs.declared.ends.HeldWriter.{HeldWriter as WriterValue};
ghost use Rattle.tracering_c.specs.declared.ends.HeldReader.{HeldReader as ReaderValue};
ghost use Rattle.tracering_c.specs.Held.{writer_of, reader_of};
ghost use Rattle.tracering_c.specs.Zeros.{AreZeros};
ghost use Rattle.tracering_c.specs.Handles.{IsWriterHandle, IsReaderHandle, SaysAbsent};
ghost use Rattle.tracering_c.specs.Ends.{IsHeldReader};
ghost use Rattle.tracering_c.specs.Calls.{AnswersNew};
ghost use Rattle.tracering_c.specs.Frees.{ClosesSo, FreesSo};

use crate::codes::{ABSENT, BAD_CPU, BAD_SIZE, DONE, IN_USE, NO_MEMORY};
use crate::ends::{HeldReader, HeldWriter};
use crate::handle::{ReaderHandle, WriterHandle};
use page_image::Body;
use ring_shared::Writer;
use std::alloc::Global;
use trace_model::{CpuId, MAX_CPUS, MAX_PAGES, MAX_SIZE, MIN_PAGES, MIN_SIZE, NoMemory};

/// A new ring of this CPU, of `pages` pages of `size` bytes of data, for two handles that have none. All its memory is
/// taken here.
#[unsafe(no_mangle)]
pub extern "C" fn tracering_raw_new(
    alloc: Global,
    w: &mut WriterHandle,
    r: &mut ReaderHandle,
    cpu: u32,
    pages: usize,
    size: usize,
) -> i32
    requires writer { IsWriterHandle w.old }
    requires reader { IsReaderHandle r.old }
    ensures ring { result ≡ DONE
        → IsSomeAnd (writer_of w.new.held.value) (λ left. IsSomeAnd (reader_of r.new.held.value) (λ right.
        AreNewEnds (record { pages = pages; size = size; start = START_FILL }) left.writer right.reader)) }
    ensures cpu { result ≡ DONE → IsSomeAnd (reader_of r.new.held.value) (λ right. right.cpu.0 ≡ cpu) }
    ensures writer_cpu { result ≡ DONE → IsSomeAnd (writer_of w.new.held.value) (λ left. left.cpu.0 ≡ cpu) }
    ensures writer_stays { result ≢ DONE → w.new ≡ w.old }
    ensures reader_stays { result ≢ DONE → r.new ≡ r.old }
    ensures answers { writer_of w.old.held.value ≡ None → reader_of r.old.held.value ≡ None
        → AnswersNew cpu pages size result }
    ensures in_use { is_some (writer_of w.old.held.value) ≡ true → result ≡ IN_USE }
    ensures in_use_too { is_some (reader_of r.old.held.value) ≡ true → result ≡ IN_USE }
    ensures writer { IsWriterHandle w.new }
    ensures reader { IsReaderHandle r.new }
{
    if w.live || r.live {
        return IN_USE;
    }
    if cpu >= MAX_CPUS {
        return BAD_CPU;
    }
    if !has_limits(pages, size) {
        return BAD_SIZE;
    }
    let Ok((left, right)) = new_ends(alloc, CpuId(cpu), pages, size) else {
        return NO_MEMORY;
    };
    *w = WriterHandle::of(left);
    *r = ReaderHandle::of(right);
    DONE
}

/// Both ends of a new ring, each in its box.
fn new_ends(
    alloc: Global,
    cpu: CpuId,
    pages: usize,
    size: usize,
) -> Result<(Box<HeldWriter, Global>, Box<HeldReader, Global>), NoMemory>
    requires limits { HasRingLimits pages size }
    requires known { cpu.0 < MAX_CPUS }
    ensures ring { IfOk result (λ ends. AreNewEnds (record { pages = pages; size = size; start = START_FILL })
        ends.0.value.writer ends.1.value.reader) }
    ensures cpu { IfOk result (λ ends. ends.1.value.cpu.0 ≡ cpu.0) }
    ensures writer_cpu { IfOk result (λ ends. ends.0.value.cpu.0 ≡ cpu.0) }
    ensures writer { IfOk result (λ ends. IsWriter ends.0.value.writer) }
    ensures reader { IfOk result (λ ends. IsHeldReader ends.1.value) }
{
    let (writer, reader) = ring_shared::ring(alloc, pages, size)?;
    let body = Some(Body::new(alloc, size)?);
    let left = Box::new(alloc, HeldWriter { writer, cpu })?;
    let end = HeldReader {
        cpu,
        reader,
        body,
        unadded: None,
    };
    let right = Box::new(alloc, end)?;
    Ok((left, right))
}

/// Whether a ring can have this number of pages, of `size` bytes of data each.
fn has_limits(pages: usize, size: usize) -> bool
    ensures { result ≡ true ↔ HasRingLimits pages size }
{
    pages >= MIN_PAGES
        && pages <= MAX_PAGES
        && size >= MIN_SIZE
        && size <= MAX_SIZE
        && size % 4 == 0
}

/// Frees the writer: it is freed at most once. If nothing is begun, the page that is written is closed first. `lost` is
/// set to how many records are lost: those that have a number, and are on no closed page. That the writer's memory is
/// released is tested, and not proved.
#[unsafe(no_mangle)]
pub extern "C" fn tracering_raw_writer_free(
    alloc: Global,
    w: &mut WriterHandle,
    lost: &mut u64,
) -> i32
    requires writer { IsWriterHandle w.old }
    ensures absent { SaysAbsent (writer_of w.old.held.value) result w.old w.new }
    ensures lost_stays { writer_of w.old.held.value ≡ None → lost.new ≡ lost.old }
    ensures freed { (x : WriterValue) → writer_of w.old.held.value ≡ Some x → result ≡ DONE }
    ensures frees { (x : WriterValue) → writer_of w.old.held.value ≡ Some x → FreesSo x.writer lost.new }
    ensures none { writer_of w.new.held.value ≡ None }
    ensures cleared { (x : WriterValue) → writer_of w.old.held.value ≡ Some x → AreZeros w.new.held.at w.new.live }
{
    let Some(end) = w.take_out(alloc) else {
        return ABSENT;
    };
    *lost = close_last(Box::into_inner(end));
    DONE
}

/// Closes the page that is written, if nothing is begun, and drops the writer: how many records are lost.
fn close_last(end: HeldWriter) -> u64
    requires writer { IsWriter end.writer }
    ensures { FreesSo end.writer result }
{
    let HeldWriter { mut writer, .. } = end;
    close_page(&mut writer);
    writer.unclosed()
}

/// Closes the page that is written, if nothing is begun.
fn close_page(writer: &mut Writer)
    requires writer { IsWriter writer.old }
    ensures closes { writer.old.part.frames ≡ [] → ClosesSo writer.old writer.new }
    ensures stays { writer.old.part.frames ≢ [] → writer.new ≡ writer.old }
    ensures writer { IsWriter writer.new }
{
    if writer.depth() > 0 {
        return;
    }
    writer.begin_close();
    writer.finish_top();
}

/// Frees the reader: it is freed at most once. That its memory is released is tested, and not proved.
#[unsafe(no_mangle)]
pub extern "C" fn tracering_raw_reader_free(alloc: Global, r: &mut ReaderHandle) -> i32
    requires reader { IsReaderHandle r.old }
    ensures absent { SaysAbsent (reader_of r.old.held.value) result r.old r.new }
    ensures freed { (x : ReaderValue) → reader_of r.old.held.value ≡ Some x → result ≡ DONE }
    ensures none { reader_of r.new.held.value ≡ None }
    ensures cleared { (x : ReaderValue) → reader_of r.old.held.value ≡ Some x → AreZeros r.new.held.at r.new.live }
{
    let Some(_end) = r.take_out(alloc) else {
        return ABSENT;
    };
    DONE
}
