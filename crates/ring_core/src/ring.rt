//! The ring: its links and counts, the frames of its writers, the pages at home, and its reader.
mod frames;
mod head;
mod links;
mod look;
mod new;
mod pages;
mod reader;
mod step;
mod top;
mod write;

use link_marks::Link;
use page_image::Page;
use ring_frames::{Frames, TakeState};
use std::fmt;
use std::marker::Model;

/// A ring of N pages and a spare, the writer's frames and the reader. The page of a fill that is begun and not closed
/// is the writer's; any other page is at home, or is the reader's.
///
/// ```
/// let mut core = Core::new(rt.alloc(), 2, 32)?;
/// let push = Event::Push {
///     moment: 100,
///     len: 4,
/// };
/// assert!(rt; matches!(core.step(push), Answer::Pushed));
/// assert!(rt; matches!(core.step(Event::Step), Answer::Reserved(RecordNo(0))));
/// core.top_mut()?.fill(7);
/// assert!(rt; matches!(core.step(Event::End), Answer::Ended(Ended::Full)));
/// assert!(rt; matches!(core.step(Event::Step), Answer::Gone));
/// ```
#[derive(Drop)]
pub struct Core {
    /// The writer's frames, the pages that they write, and how many fills are begun and closed.
    frames: Frames,
    /// The link into each position.
    links: Vec<Link>,
    /// The link of the spare.
    spare_link: Link,
    /// The page at each position.
    order: Vec<u16>,
    /// The reader's page, outside the ring.
    spare: u16,
    /// The pages at home, by their numbers.
    homes: Vec<Option<Page>>,
    /// One more than the number of closed fills that the reader knew when it wished last.
    wish: u64,
    reader: TakeState,
}

impl Model for Core {
    ghost use Rattle.ring_core.specs.Value.{CoreValue};
    ghost use Rattle.ring_core.specs.Inside.{core_of, IsInside};

    ghost Value = { CoreValue };

    ghost view = { core_of };

    ghost invariant = { IsInside };
}

impl Core {
    ghost use Rattle.std.specs.Prelude.{◌≡◌, length};

    /// The number of frames on the writer's stack.
    #[inline(always)]
    pub fn depth(&self) -> usize
        ensures { result ≡ length self.now.stack.frames }
    {
        self.frames.depth()
    }

    /// How many bytes of data a page has.
    #[inline(always)]
    pub fn size(&self) -> usize
        ensures { result ≡ self.now.stack.size }
    {
        self.frames.size()
    }
}

/// The number of frames on the stack, and of bytes of data of a page: a ring has no short text.
impl fmt::Debug for Core {
    fn fmt<W: fmt::Write>(&self, f: &mut fmt::Formatter<W>) -> fmt::Result {
        f.debug_struct("Core")
            .field("depth", &self.depth())
            .field("size", &self.size())
            .finish_non_exhaustive()
    }
}
