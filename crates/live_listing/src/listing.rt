//! One listing of all CPUs.
ghost use Rattle.std.specs.Prelude.{◌≡◌, ◌<◌, length, OnOk};
ghost use Rattle.line_follower.specs.Known.{page};
ghost use Rattle.line_follower.specs.Runs.{Follows};
ghost use Rattle.live_listing.specs.Live.{Adds};

use crate::pages::{Content, CpuPages};
use capture::CaptureFault;
use line_follower::{Follower, Line, Said};
use std::alloc::Global;
use std::marker::Model;
use trace_model::{CpuId, MAX_CPUS, NoMemory};

/// The pages of all CPUs there can be, as far as they are read, and the lines that wait until they are final.
///
/// After each page, quiet round and end the lines that are final by then are put behind those that were given; at the
/// end [`rest`](LiveListing::rest) gives those that are left.
#[derive(Drop)]
pub struct LiveListing {
    follower: Follower<Content>,
    /// At the place that is its number, each CPU.
    cpus: Vec<CpuPages>,
}

impl Model for LiveListing {
    ghost use Rattle.std.specs.Prelude.{◌≡◌, map, length};
    ghost use Rattle.trace_model.specs.declared.limits.TheConstants.{MAX_CPUS};
    ghost use Rattle.live_listing.specs.Live.{Live, AreInOrder};
    ghost use Rattle.live_listing.specs.Pages.{reached};

    ghost Value = { Live };

    ghost view = { λ l. record { following = l.follower; cpus = map reached l.cpus.items } };

    ghost invariant = { λ l. (length l.cpus.items ≡ MAX_CPUS) × (length l.follower.known.cpus ≡ MAX_CPUS)
        × AreInOrder l.cpus.items };
}

/// The lines of a page were read: gives what is final then.
fn follow_page(
    follower: &mut Follower<Content>,
    cpu: CpuId,
    lines: &mut Vec<Line<Content>>,
    given: &mut Vec<Said<Content>>,
) -> Result<(), NoMemory>
    requires { cpu.0 < length follower.old.known.cpus }
    ensures follows { OnOk result (Adds (λ said. Follows follower.old (page cpu.0 lines.old.items) said follower.new)
        given.old.items given.new.items) }
    ensures count { length follower.new.known.cpus ≡ length follower.old.known.cpus }
{
    follower.take_page(cpu, lines)?;
    follower.take_final(given)
}

impl LiveListing {
    ghost use Rattle.std.specs.Prelude.{◌≡◌, ◌<◌, true, false, None, map, IfOk, IfSome, OnOk};
    ghost use Rattle.trace_model.specs.declared.limits.TheConstants.{MAX_CPUS};
    ghost use Rattle.line_follower.specs.Known.{quiet, ended, is_any_open};
    ghost use Rattle.live_listing.specs.Pages.{reached};
    ghost use Rattle.live_listing.specs.Live.{nothing_live, AreInOrder, Adds, ReadsPage, Happens, GivesRest};

    /// Of no CPU anything is read, and more can come of each.
    pub fn new(alloc: Global) -> Result<LiveListing, NoMemory>
        ensures { IfOk result (λ live. live ≡ nothing_live) }
    {
        let mut cpus = Vec::new(alloc);
        for cpu in 0..MAX_CPUS {
            cpus.push(CpuPages::new(alloc, CpuId(cpu)))?;
        }
        let follower = Follower::new(alloc, MAX_CPUS as usize)?;
        Ok(LiveListing { follower, cpus })
    }

    /// The CPU of which more is wanted most, while any is open. None if all have ended. That it is the open one whose
    /// moments are the least far isn't promised.
    pub fn awaited(&self) -> Option<CpuId>
        ensures none { result ≡ None → is_any_open self.now.following.known.cpus ≡ false }
        ensures some { IfSome result (λ cpu. (cpu.0 < MAX_CPUS)
            × (is_any_open self.now.following.known.cpus ≡ true)) }
    {
        self.follower.awaited()
    }

    /// The pages of each CPU, by rising number.
    pub fn cpus(&self) -> &[CpuPages]
        ensures reached { map reached result.now ≡ self.now.cpus }
        ensures order { AreInOrder result.now }
    {
        &self.cpus
    }

    /// A page of a CPU was read, which is this image. Where there is no answer, the listing is of no use any more.
    ///
    /// Stamps in the image are replaced by extends to the same times.
    pub fn page(
        &mut self,
        alloc: Global,
        cpu: CpuId,
        image: &mut [u8],
        given: &mut Vec<Said<Content>>,
    ) -> Result<(), CaptureFault>
        requires { cpu.0 < MAX_CPUS }
        ensures { OnOk result (Adds (λ said. ReadsPage cpu.0 image.old self.old said self.new) given.old.items
            given.new.items) }
    {
        let mut lines = self.cpus[cpu.0 as usize].read_page(alloc, image)?;
        match follow_page(&mut self.follower, cpu, &mut lines, given) {
            Ok(()) => Ok(()),
            Err(NoMemory) => Err(CaptureFault::NoMemory),
        }
    }

    /// Nothing came of a CPU for a round.
    pub fn quiet(&mut self, cpu: CpuId, given: &mut Vec<Said<Content>>) -> Result<(), NoMemory>
        requires { cpu.0 < MAX_CPUS }
        ensures { OnOk result (Adds (λ said. Happens (quiet cpu.0) self.old said self.new) given.old.items
            given.new.items) }
    {
        self.follower.quiet(cpu);
        self.follower.take_final(given)
    }

    /// No more comes of a CPU.
    pub fn end(&mut self, cpu: CpuId, given: &mut Vec<Said<Content>>) -> Result<(), NoMemory>
        requires { cpu.0 < MAX_CPUS }
        ensures { OnOk result (Adds (λ said. Happens (ended cpu.0) self.old said self.new) given.old.items
            given.new.items) }
    {
        self.follower.end(cpu);
        self.follower.take_final(given)
    }

    /// Gives the lines that are left.
    pub fn rest(&mut self, given: &mut Vec<Said<Content>>) -> Result<(), NoMemory>
        ensures { OnOk result (Adds (λ said. GivesRest self.old said self.new) given.old.items given.new.items) }
    {
        self.follower.take_rest(given)
    }
}
