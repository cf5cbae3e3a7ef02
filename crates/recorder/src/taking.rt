//! Pages are taken: beside the thread that records, and after it.
ghost use Rattle.std.specs.Prelude.{◌≡◌, IfOk};
ghost use Rattle.tracering.specs.Rings.{IsWriter, IsReader};

use crate::SIZE;
use crate::fault::Fault;
use crate::recording::close;
use std::alloc::Global;
use std::thread;
use tracering::CpuId;
use tracering::collectors::Collector;
use tracering::pages::Body;
use tracering::parcels::Parcel;
use tracering::rings::{Reader, Take, Writer};

/// How often each loop here goes round at most: more than what is recorded here needs.
const TAKES: usize = 1_000;

/// Takes each page that is closed and unread, and adds it to the collector as a parcel.
pub fn take_pages(
    alloc: Global,
    cpu: CpuId,
    reader: &mut Reader,
    collector: &mut Collector,
) -> Result<(), Fault>
    requires reader { IsReader reader.old }
    requires size { reader.old.shape.size ≡ SIZE }
    ensures reader { IsReader reader.new }
    ensures size { reader.new.shape.size ≡ SIZE }
{
    let mut body = Body::new(alloc, SIZE)?;
    for _ in 0..TAKES {
        body = match reader.take(body) {
            Take::Page(page, missed) => {
                collector.add(Parcel::of(alloc, cpu, page, missed)?)?;
                Body::new(alloc, SIZE)?
            }
            Take::Moving(_, body) => body,
            Take::Empty(_, _) => return Ok(()),
        };
    }
    Ok(())
}

/// Takes pages beside their writer for a while, into a new collector.
pub fn take_beside(alloc: Global, cpu: CpuId, reader: Reader) -> Result<(Reader, Collector), Fault>
    requires reader { IsReader reader }
    requires size { reader.shape.size ≡ SIZE }
    ensures reader { IfOk result (λ ends. IsReader ends.0) }
    ensures size { IfOk result (λ ends. ends.0.shape.size ≡ SIZE) }
{
    let mut reader = reader;
    let mut collector = Collector::new(alloc);
    for _ in 0..TAKES {
        take_pages(alloc, cpu, &mut reader, &mut collector)?;
        thread::yield_now();
    }
    Ok((reader, collector))
}

/// Takes all that a ring has: its closed pages first, then the page that was written last, which is closed for it.
pub fn take_rest(
    alloc: Global,
    cpu: CpuId,
    writer: Writer,
    reader: Reader,
    collector: &mut Collector,
) -> Result<(), Fault>
    requires writer { IsWriter writer }
    requires reader { IsReader reader }
    requires size { reader.shape.size ≡ SIZE }
{
    let mut reader = reader;
    take_pages(alloc, cpu, &mut reader, collector)?;
    close(writer);
    take_pages(alloc, cpu, &mut reader, collector)
}
