//! A ring's two ends, each with what its calls need, a collector and a fleet.
ghost use Rattle.std.specs.Prelude.{◌<◌};
ghost use Rattle.trace_model.specs.declared.limits.TheConstants.{MAX_CPUS};

use library_values::listed_collector::ListedCollector;
use library_values::listed_fleet::ListedFleet;
use page_image::{Body, Page};
use ring_shared::{Reader, Take, Writer};
use trace_model::CpuId;

/// The writer, and the CPU under which its pages are parcels.
#[derive(Drop)]
pub struct HeldWriter {
    /// The ring's writer.
    pub writer: Writer,
    /// The CPU under which the pages are parcels.
    pub cpu: CpuId,
    pub ghost cpu_known: { cpu.0 < MAX_CPUS },
}

/// A page that was taken for a collector, which didn't add it: the next take gives it.
#[derive(Drop)]
pub struct Unadded {
    /// The page.
    pub page: Page,
    /// How many records were lost before it, since the page taken before.
    pub missed: u64,
}

/// The reader, the CPU under which its pages are parcels, and the body that its next take gives to the ring.
#[derive(Drop)]
pub struct HeldReader {
    /// The CPU under which the pages are parcels.
    pub cpu: CpuId,
    /// The ring's reader.
    pub reader: Reader,
    /// The body for the next take. There is one, between two calls, unless there is a page that wasn't added.
    pub body: Option<Body>,
    /// The page that was taken last, if the collector that it was taken for didn't add it.
    pub unadded: Option<Unadded>,
}

/// What a reader gives next.
#[derive(Drop)]
pub enum Next {
    /// A page, and how many records were lost before it, since the page taken before.
    Page(Page, u64),
    /// No closed page is unread.
    Empty,
    /// A move of the head isn't finished, or the take has made as many steps as it may.
    Moving,
}

/// A collector and its listing.
#[derive(Drop)]
pub struct HeldCollector {
    /// Both.
    pub listed: ListedCollector,
}

/// A fleet and its listing.
#[derive(Drop)]
pub struct HeldFleet {
    /// Both.
    pub listed: ListedFleet,
}

impl HeldReader {
    ghost use Rattle.std.specs.Prelude.{◌≡◌, ◌≤◌, length, IsSomeAnd};
    ghost use Rattle.trace_model.specs.declared.limits.TheConstants.{MAX_SIZE};
    ghost use Rattle.std.specs.Prelude.{None};
    ghost use Rattle.ring_shared.specs.Takes.{IsReader, SameRing};
    ghost use Rattle.tracering_c.specs.Ends.{IsHeldReader};
    ghost use Rattle.tracering_c.specs.Calls.{GivesNext};

    /// The page that a collector didn't add, if there is one; else the oldest one that is closed and unread, which is
    /// taken.
    pub(crate) fn next(&mut self) -> Next
        requires { IsHeldReader self.old }
        ensures next { GivesNext self.old result self.new }
        ensures added { self.new.unadded ≡ None }
        ensures cpu { self.new.cpu ≡ self.old.cpu }
        ensures ring { SameRing self.old.reader self.new.reader }
        ensures reader { IsReader self.new.reader }
    {
        if let Some(Unadded { page, missed }) = self.unadded.take() {
            return Next::Page(page, missed);
        }
        let Some(body) = self.body.take() else {
            unreachable!()
        };
        match self.reader.take(body) {
            Take::Page(page, missed) => Next::Page(page, missed),
            Take::Empty(_, back) => {
                self.body = Some(back);
                Next::Empty
            }
            Take::Moving(_, back) => {
                self.body = Some(back);
                Next::Moving
            }
        }
    }

    /// Has the body of a page for the next take.
    pub(crate) fn put_back(&mut self, page: Page)
        ensures body { IsSomeAnd self.new.body (λ body. length body ≡ page.size) }
        ensures reader { self.new.reader ≡ self.old.reader }
        ensures unadded { self.new.unadded ≡ self.old.unadded }
        ensures cpu { self.new.cpu ≡ self.old.cpu }
    {
        self.body = Some(self.reader.give_back(page));
    }

    /// How many bytes of data the ring's pages have.
    pub(crate) fn size(&self) -> usize
        requires { IsHeldReader self.now }
        ensures size { result ≡ self.now.reader.shape.size }
        ensures limit { result ≤ MAX_SIZE }
    {
        if let Some(unadded) = &self.unadded {
            return unadded.page.size();
        }
        let Some(body) = &self.body else {
            unreachable!()
        };
        body.size()
    }
}
