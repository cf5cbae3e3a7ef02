//! Lines that wait until they are final.
ghost use Rattle.std.specs.Prelude.{◌≡◌, ℕ, List, ◌+◌, ◌^◌, ◌<◌, ◌≤◌, ◌++◌, [], map, length, vec_len, true, false};
ghost use Rattle.std.specs.Prelude.{None, IfOk, IfSome, OnOk, OnErr, MatchOption, IsPermutation};
ghost use Rattle.std.specs.BinaryHeap.{IsHeap, heap_items, heap_len, heap_capacity};
ghost use Rattle.line_follower.specs.Order.{said_after, last_of};
ghost use Rattle.line_follower.specs.Known.{page, quiet, ended, is_any_open};
ghost use Rattle.line_follower.specs.Following.{nothing_read, Takes, Gives, GivesFinal, NoneIsFinal};
ghost use Rattle.line_follower.specs.declared.lines.Said.{Said};
ghost use Rattle.line_follower.specs.Runs.{GivesAll};
ghost use Rattle.line_follower.specs.Inside.{waiting_order, line_of_waiting, waiting_of};

use crate::bounds::Bounds;
use crate::lines::{Line, Place, Said};
use std::alloc::Global;
use std::cmp::Reverse;
use std::collections::BinaryHeap;
use std::marker::Model;
use trace_model::{CpuId, NoMemory};

/// A line that waits. The first in the order is the greatest.
#[derive_where(PartialEq, Eq, PartialOrd, Ord)]
#[derive(Drop)]
struct Waiting<T> {
    place: Reverse<Place>,
    #[derive_where(skip)]
    content: T,
}

/// Has lines wait, for which there is room.
fn wait_all<T>(waiting: &mut BinaryHeap<Waiting<T>>, lines: &mut Vec<Line<T>>)
    requires room { heap_len waiting.old + vec_len lines.old ≤ heap_capacity waiting.old }
    requires heap { IsHeap waiting_order (heap_items waiting.old) }
    ensures heap { IsHeap waiting_order (heap_items waiting.new) }
    ensures waiting { IsPermutation (map waiting_of lines.old.items ++ heap_items waiting.old)
        (heap_items waiting.new) }
    ensures lines { lines.new.items ≡ [] }
{
    while let Some(line) = lines.pop() {
        let pushed = waiting.push(Waiting {
            place: Reverse(line.place),
            content: line.content,
        });
        match pushed {
            Ok(()) => {}
            Err(_) => unreachable!(),
        }
    }
}

/// What is said of a line that waited, after that which was last in the order.
fn say<T>(last: &mut Place, waiting: Waiting<T>) -> Said<T>
    ensures said { result ≡ said_after last.old (line_of_waiting waiting) }
    ensures last { last.new ≡ last_of last.old waiting.place.0 }
{
    let line = Line {
        place: waiting.place.0,
        content: waiting.content,
    };
    if line.place < *last {
        return Said::Late(line);
    }
    *last = line.place;
    Said::InOrder(line)
}

/// One reading of several CPUs: what is known of each, and the lines that wait until they are final.
///
/// After each event the lines that are final then are taken by `next_final` or `take_final`, and those that are left in
/// the end by `next_waiting` or `take_rest`. Each line that was read is given once.
///
/// ```
/// let mut follower = Follower::new(rt.alloc(), 2)?;
/// follower.take_page(CpuId(0), &mut lines)?;
/// while let Some(said) = follower.next_final() {
///     print(said);
/// }
/// ```
#[derive(Drop)]
pub struct Follower<T> {
    bounds: Bounds,
    waiting: BinaryHeap<Waiting<T>>,
    /// The last place in the order of the lines that were given.
    last: Place,
}

impl<T> Model for Follower<T> {
    ghost use Rattle.std.specs.Prelude.{map};
    ghost use Rattle.std.specs.BinaryHeap.{IsHeap, heap_items};
    ghost use Rattle.line_follower.specs.Following.{Following};

    ghost Value = { Following T };

    ghost use Rattle.line_follower.specs.Inside.{waiting_order, line_of_waiting};

    ghost view = { λ f. record {
      known = f.bounds;
      waiting = map line_of_waiting (heap_items f.waiting);
      last = f.last;
    } };

    ghost invariant = { λ f. IsHeap waiting_order (heap_items f.waiting) };
}

impl<T> Follower<T> {
    /// A reading of this many CPUs, of which nothing was read yet.
    pub fn new(alloc: Global, count: usize) -> Result<Follower<T>, NoMemory>
        ensures { IfOk result (λ follower. follower ≡ nothing_read count) }
    {
        let bounds = Bounds::new(alloc, count)?;
        Ok(Follower {
            bounds,
            waiting: BinaryHeap::new(alloc),
            last: Place::FIRST,
        })
    }

    /// How many CPUs there are.
    pub fn count(&self) -> usize
        ensures { result ≡ length self.now.known.cpus }
    {
        self.bounds.count()
    }

    /// The open CPU with the least bound: without more of it no line is final that isn't. None if no CPU is open.
    pub fn awaited(&self) -> Option<CpuId>
        requires { length self.now.known.cpus ≤ 2 ^ 32 }
        ensures none { result ≡ None → is_any_open self.now.known.cpus ≡ false }
        ensures some { IfSome result (λ cpu. (cpu.0 < length self.now.known.cpus)
            × (is_any_open self.now.known.cpus ≡ true)) }
    {
        let cpu = self.bounds.awaited()?;
        Some(CpuId(cpu as u32))
    }

    /// A page of a CPU was read, with these lines, which are taken out of the `Vec`.
    ///
    /// If memory is refused, nothing has changed.
    pub fn take_page(&mut self, cpu: CpuId, lines: &mut Vec<Line<T>>) -> Result<(), NoMemory>
        requires { cpu.0 < length self.old.known.cpus }
        ensures taken { OnOk result (Takes self.old (page cpu.0 lines.old.items) self.new) }
        ensures lines { OnOk result (lines.new.items ≡ []) }
        ensures refused { OnErr result ((self.new ≡ self.old) × (lines.new ≡ lines.old)) }
        ensures count { length self.new.known.cpus ≡ length self.old.known.cpus }
    {
        self.waiting.reserve(lines.len())?;
        self.bounds.read(cpu, lines);
        wait_all(&mut self.waiting, lines);
        Ok(())
    }

    /// Nothing came of a CPU for a round. Such a round is so long that all lines that a CPU has can be read in it.
    pub fn quiet(&mut self, cpu: CpuId)
        requires { cpu.0 < length self.old.known.cpus }
        ensures taken { Takes self.old (quiet cpu.0) self.new }
        ensures count { length self.new.known.cpus ≡ length self.old.known.cpus }
    {
        self.bounds.quiet::<T>(cpu);
    }

    /// A CPU ended: no line waits for it any more.
    pub fn end(&mut self, cpu: CpuId)
        requires { cpu.0 < length self.old.known.cpus }
        ensures taken { Takes self.old (ended cpu.0) self.new }
        ensures count { length self.new.known.cpus ≡ length self.old.known.cpus }
    {
        self.bounds.end::<T>(cpu);
    }

    /// The first of the lines that wait, if it is final. If there is none, no line that waits is final.
    pub fn next_final(&mut self) -> Option<Said<T>>
        ensures given { MatchOption result ((self.new ≡ self.old) × NoneIsFinal self.old)
            (λ said. GivesFinal self.old said self.new) }
        ensures count { length self.new.known.cpus ≡ length self.old.known.cpus }
    {
        let first = self.waiting.peek()?.place.0;
        if !self.bounds.is_final(first) {
            return None;
        }
        let waiting = self.waiting.pop()?;
        Some(say(&mut self.last, waiting))
    }

    /// The first of the lines that wait, final or not.
    pub fn next_waiting(&mut self) -> Option<Said<T>>
        ensures given { MatchOption result ((self.new ≡ self.old) × (self.old.waiting ≡ []))
            (λ said. Gives self.old said self.new) }
        ensures count { length self.new.known.cpus ≡ length self.old.known.cpus }
    {
        let waiting = self.waiting.pop()?;
        Some(say(&mut self.last, waiting))
    }

    /// How many lines wait.
    pub fn waiting(&self) -> usize
        ensures { result ≡ length self.now.waiting }
    {
        self.waiting.len()
    }

    /// Puts all lines that are final behind those that the `Vec` has.
    ///
    /// If memory is refused, nothing has changed.
    pub fn take_final(&mut self, given: &mut Vec<Said<T>>) -> Result<(), NoMemory>
        ensures given { OnOk result ((said : List (Said T)) × (given.new.items ≡ given.old.items ++ said)
            × GivesAll GivesFinal self.old said self.new) }
        ensures none { OnOk result (NoneIsFinal self.new) }
        ensures refused { OnErr result ((self.new ≡ self.old) × (given.new.items ≡ given.old.items)) }
        ensures count { length self.new.known.cpus ≡ length self.old.known.cpus }
    {
        given.reserve(self.waiting())?;
        while let Some(said) = self.next_final() {
            match given.push(said) {
                Ok(()) => {}
                Err(_) => unreachable!(),
            }
        }
        Ok(())
    }

    /// Puts all lines that wait behind those that the `Vec` has, final or not.
    ///
    /// If memory is refused, nothing has changed.
    pub fn take_rest(&mut self, given: &mut Vec<Said<T>>) -> Result<(), NoMemory>
        ensures given { OnOk result ((said : List (Said T)) × (given.new.items ≡ given.old.items ++ said)
            × GivesAll Gives self.old said self.new) }
        ensures none { OnOk result (self.new.waiting ≡ []) }
        ensures refused { OnErr result ((self.new ≡ self.old) × (given.new.items ≡ given.old.items)) }
        ensures count { length self.new.known.cpus ≡ length self.old.known.cpus }
    {
        given.reserve(self.waiting())?;
        while let Some(said) = self.next_waiting() {
            match given.push(said) {
                Ok(()) => {}
                Err(_) => unreachable!(),
            }
        }
        Ok(())
    }
}
