//! A reader's end with the parcels that it took.
ghost use Rattle.std.specs.Prelude.{◌≡◌, ◌≤◌, ◌%◌, Some, IfOk, IfSome, length};
ghost use Rattle.trace_model.specs.declared.limits.TheConstants.{MIN_SIZE, MAX_SIZE};

use page_image::Body;
use page_numbers::Parcel;
use ring_shared::{Reader, Take, Writer};
use std::alloc::Global;
use std::marker::Model;
use trace_model::{CpuId, NoMemory};

/// The reader's end of a CPU's ring, and all parcels that it took, in order. `take` takes it and returns it by value,
/// so that a thread's result has all of it.
#[derive(Drop)]
pub struct ReaderEnd {
    cpu: CpuId,
    /// The bytes of data of the ring's pages.
    size: usize,
    pub(crate) reader: Reader,
    pub(crate) taken: Vec<Parcel>,
    /// The body for the next take, if there is one yet.
    body: Option<Body>,
}

impl Model for ReaderEnd {
    ghost use Rattle.trace_run.specs.readers.Value.{ReaderEndValue, IsReaderEnd};

    ghost Value = { ReaderEndValue };

    ghost view = { λ e. record {
      cpu = e.cpu.0;
      size = e.size;
      reader = e.reader;
      taken = e.taken.items;
      body = e.body;
    } };

    ghost invariant = { λ e. IsReaderEnd (record {
      cpu = e.cpu.0;
      size = e.size;
      reader = e.reader;
      taken = e.taken.items;
      body = e.body;
    }) };
}

/// What a take found.
#[derive(Clone, Copy, Debug, PartialEq, Eq)]
pub enum Found {
    /// A page: its parcel is the last one.
    Page,
    /// No closed fill is unread.
    Empty,
    /// A move of the head isn't finished, or the take has made as many steps as it may.
    Moving,
}

/// The body for the next take: the one that is there, for which no memory is asked; or a new one.
fn next_body(alloc: Global, size: usize, body: Option<Body>) -> Result<Body, NoMemory>
    requires small { MIN_SIZE ≤ size }
    requires large { size ≤ MAX_SIZE }
    requires words { size % 4 ≡ 0 }
    requires fits { IfSome body (λ back. length back ≡ size) }
    ensures size { IfOk result (λ body. length body ≡ size) }
    ensures kept { IfSome body (λ back. result ≡ Ok back) }
{
    match body {
        Some(body) => Ok(body),
        None => Body::new(alloc, size),
    }
}

impl ReaderEnd {
    ghost use Rattle.std.specs.Prelude.{◌≡◌, ◌≢◌, ◌<◌, ◌≤◌, ◌%◌, ◌++◌, ◌↔◌, List, [], ◌∷◌, Some, MatchOption, IfOk};
    ghost use Rattle.std.specs.Prelude.{IsTrue};
    ghost use Rattle.trace_model.specs.declared.limits.TheConstants.{MAX_CPUS, MIN_SIZE, MAX_SIZE};
    ghost use Rattle.page_numbers.specs.Parcels.{ParcelValue};
    ghost use Rattle.ring_steps.specs.NewRings.{first_reading};
    ghost use Rattle.ring_shared.specs.Calls.{IsWriter};
    ghost use Rattle.ring_shared.specs.Takes.{IsReader, SameRing};
    ghost use Rattle.trace_run.specs.readers.Takes.{IsFound};

    /// The end of a new ring's reader, of this CPU's ring, whose pages have `size` bytes of data.
    pub fn new(alloc: Global, cpu: CpuId, size: usize, reader: Reader) -> ReaderEnd
        requires known { cpu.0 < MAX_CPUS }
        requires reader { IsReader reader }
        requires new { reader.part ≡ first_reading reader.shape }
        requires size { reader.shape.size ≡ size }
        requires small { MIN_SIZE ≤ size }
        requires large { size ≤ MAX_SIZE }
        requires words { size % 4 ≡ 0 }
        ensures cpu { result.cpu ≡ cpu.0 }
        ensures size { result.size ≡ size }
        ensures reader { result.reader ≡ reader }
        ensures nothing { result.taken ≡ [] }
    {
        let taken = Vec::new(alloc);
        ReaderEnd {
            cpu,
            size,
            reader,
            taken,
            body: None,
        }
    }

    /// Takes the oldest page that is closed and unread, if there is one, and keeps its records as one parcel more, in
    /// as many bytes as they take. Its body is kept for the next take. If memory is refused, the end is dropped whole.
    pub fn take(self, alloc: Global) -> Result<(ReaderEnd, Found), NoMemory>
        ensures same { IfOk result (λ r. SameRing self.reader r.0.reader) }
        ensures cpu { IfOk result (λ r. r.0.cpu ≡ self.cpu) }
        ensures size { IfOk result (λ r. r.0.size ≡ self.size) }
        ensures found { IfOk result (λ r. IsFound r.1 self r.0) }
        ensures page { IfOk result (λ r. r.1 ≡ Found.Page → r.0.taken ≢ []) }
    {
        let ReaderEnd {
            cpu,
            size,
            reader,
            taken,
            body,
        } = self;
        let mut reader = reader;
        let mut taken = taken;
        let body = next_body(alloc, size, body)?;
        let (body, found) = match reader.take(body) {
            Take::Page(page, missed) => {
                taken.push(Parcel::fitted(alloc, cpu, &page, missed)?)?;
                (page.into_body(), Found::Page)
            }
            Take::Empty(_, body) => (body, Found::Empty),
            Take::Moving(_, body) => (body, Found::Moving),
        };
        Ok((
            ReaderEnd {
                cpu,
                size,
                reader,
                taken,
                body: Some(body),
            },
            found,
        ))
    }

    /// The parcel that was taken last.
    pub fn last(&self) -> Option<&Parcel>
        ensures { MatchOption result (self.now.taken ≡ [])
            (λ parcel. (earlier : List ParcelValue) × (self.now.taken ≡ earlier ++ parcel.now ∷ [])) }
    {
        self.taken.last()
    }

    /// Whether the last take found that each fill that the writer closed is taken or lost.
    pub fn has_all(&self, writer: &Writer) -> bool
        requires { IsWriter writer.now }
        ensures { IsTrue result ↔ (self.now.reader.empty_at ≡ Some writer.now.part.done) }
    {
        self.reader.empty_at() == Some(writer.done())
    }
}
