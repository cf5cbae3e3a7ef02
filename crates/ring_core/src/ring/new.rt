//! A new ring.
use crate::ring::Core;
use link_marks::{Link, first_link, normal};
use page_image::{Body, Page};
use ring_frames::{Frames, ReaderPhase, TakeState, first_order};
use std::alloc::Global;
use trace_model::{FillNo, NoMemory, RecordNo, START_FILL};

impl Core {
    ghost use Rattle.std.specs.Prelude.{◌+◌, ◌<◌, IfOk};
    ghost use Rattle.trace_model.specs.declared.limits.TheConstants.{LINK_FILLS, START_FILL};
    ghost use Rattle.trace_model.specs.Ring.{HasRingLimits};
    ghost use Rattle.ring_core.specs.Steps.{IsNewRing, IsReachedCore};

    /// A new ring of `pages` pages and a spare, of `size` bytes of data each, whose first fill has the number `start`.
    /// All room is made here: no other call takes memory.
    pub fn new_at(alloc: Global, pages: usize, size: usize, start: u64) -> Result<Core, NoMemory>
        requires limits { HasRingLimits pages size }
        requires start { start + pages < LINK_FILLS }
        ensures fresh { IfOk result (λ core. IsNewRing pages size start core) }
        ensures ring { IfOk result (λ core. IsReachedCore core) }
    {
        let frames = Frames::new_at(alloc, pages, size, start)?;
        let links = first_links(alloc, pages, start)?;
        let order = first_order(alloc, pages)?;
        let homes = first_homes(alloc, pages, size, (start % pages as u64) as usize)?;
        Ok(Core {
            frames,
            links,
            spare_link: normal(0, 0),
            order,
            spare: pages as u16,
            homes,
            wish: 0,
            reader: TakeState {
                phase: ReaderPhase::LoadingHead,
                hint: start,
                seen: start,
                expected: 0,
            },
        })
    }

    /// A new ring whose first fill has the number `START_FILL`.
    pub fn new(alloc: Global, pages: usize, size: usize) -> Result<Core, NoMemory>
        requires limits { HasRingLimits pages size }
        ensures fresh { IfOk result (λ core. IsNewRing pages size START_FILL core) }
        ensures ring { IfOk result (λ core. IsReachedCore core) }
    {
        Core::new_at(alloc, pages, size, START_FILL)
    }
}

/// The links of a new ring: each position has the page of its number, and the first fill is the head.
fn first_links(alloc: Global, pages: usize, start: u64) -> Result<Vec<Link>, NoMemory>
    requires most { pages ≤ MAX_PAGES }
    requires start { start + pages < LINK_FILLS }
    ensures pages { IfOk result (λ links. length links.items ≡ pages) }
    ensures links { IfOk result (λ links. AreFirstLinks pages start links.items) }
    ensures room { IfOk result (λ links. vec_capacity links ≡ pages) }
{
    let mut links = Vec::with_capacity(alloc, pages)?;
    for position in 0..pages as u16 {
        links.push_reserved(first_link(position, pages as u64, start));
    }
    Ok(links)
}

/// The pages at home in a new ring: all but that of the first fill, which the writer has, and the reader's.
fn first_homes(
    alloc: Global,
    pages: usize,
    size: usize,
    tail: usize,
) -> Result<Vec<Option<Page>>, NoMemory>
    requires most { pages ≤ MAX_PAGES }
    requires small { MIN_SIZE ≤ size }
    requires large { size ≤ MAX_SIZE }
    requires words { size % 4 ≡ 0 }
    ensures pages { IfOk result (λ homes. length homes.items ≡ pages + 1) }
    ensures homes { IfOk result (λ homes. AreFirstHomes pages size tail homes.items) }
    ensures room { IfOk result (λ homes. vec_capacity homes ≡ pages + 1) }
{
    let mut homes = Vec::with_capacity(alloc, pages + 1)?;
    for page in 0..pages {
        homes.push_reserved(first_home(alloc, page, size, tail)?);
    }
    homes.push_reserved(None);
    Ok(homes)
}

/// What is at home under this number: an empty page, unless it is the tail's.
fn first_home(
    alloc: Global,
    page: usize,
    size: usize,
    tail: usize,
) -> Result<Option<Page>, NoMemory>
    requires small { MIN_SIZE ≤ size }
    requires large { size ≤ MAX_SIZE }
    requires words { size % 4 ≡ 0 }
    ensures { IfOk result (λ home. page ≢ tail → IsFirstHome size home) }
{
    if page == tail {
        return Ok(None);
    }
    let body = Body::new(alloc, size)?;
    Ok(Some(Page::fresh(body, RecordNo(0), FillNo(0))))
}

ghost use Rattle.std.specs.Prelude.{◌≡◌, ◌≢◌, ◌+◌, ◌%◌, ◌≤◌, ◌<◌, length, vec_capacity, IfOk};
ghost use Rattle.trace_model.specs.declared.limits.TheConstants.{MAX_PAGES, MIN_SIZE, MAX_SIZE, LINK_FILLS};
ghost use Rattle.ring_core.specs.NewRing.{AreFirstLinks, IsFirstHome, AreFirstHomes};
