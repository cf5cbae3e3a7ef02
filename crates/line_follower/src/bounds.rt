//! How far each CPU is.
ghost use Rattle.std.specs.Prelude.{◌≡◌, ℕ, ◌<◌, length, IfOk, IfSome, IsTrue, None, false, true, replicate};
ghost use Rattle.line_follower.specs.Known.{known_after, greatest_of, unknown, page, quiet, ended, IsUpTo, IsFinal};
ghost use Rattle.line_follower.specs.Known.{is_any_open};
ghost use Rattle.line_follower.specs.Inside.{IsFront, IsNext};

use crate::lines::{Line, Place};
use std::alloc::Global;
use std::marker::Model;
use trace_model::{CpuId, Moment, NoMemory};

/// How far a CPU is.
#[derive(Clone, Copy)]
pub struct Progress {
    /// No line that comes of the CPU is expected before this moment.
    pub bound: Moment,
    /// The greatest moment of all CPUs when this one was last quiet.
    pub seen: Moment,
    /// Whether more of the CPU may come.
    pub is_open: bool,
}

/// Of a CPU of which nothing is known.
const UNKNOWN: Progress = Progress {
    bound: Moment(0),
    seen: Moment(0),
    is_open: true,
};

/// Up to where lines are final: at a bound, those of CPUs up to this one.
#[derive(Clone, Copy)]
pub(crate) struct Front {
    pub(crate) moment: u64,
    pub(crate) cpu: usize,
}

/// The front if no CPU is open: every line is final.
const END: Front = Front {
    moment: u64::MAX,
    cpu: usize::MAX,
};

impl Front {
    /// Whether nothing that can still come belongs before this place.
    fn has(self, place: Place) -> bool
        ensures up_to { IsTrue result → IsUpTo place self.moment self.cpu }
        ensures beyond { IsUpTo place self.moment self.cpu → IsTrue result }
    {
        place.moment.0 < self.moment
            || (place.moment.0 == self.moment && place.cpu.0 as usize <= self.cpu)
    }

    /// The first of this front and that of a CPU.
    fn or(self, cpu: usize, progress: Progress) -> Front
        ensures { IsNext self progress cpu result }
    {
        let bound = progress.bound.0;
        let is_first = bound < self.moment || (bound == self.moment && cpu < self.cpu);
        if progress.is_open && is_first {
            return Front { moment: bound, cpu };
        }
        self
    }
}

/// The greatest of a moment and those of lines.
fn greatest_moment<T>(least: Moment, lines: &[Line<T>]) -> Moment
    ensures { result.0 ≡ greatest_of least.0 lines.now }
{
    let mut greatest = least.0;
    for line in lines {
        greatest = greatest.max(line.place.moment.0);
    }
    Moment(greatest)
}

/// The least bound of the open CPUs, of the first CPU that has it.
fn front_of(cpus: &[Progress]) -> Front
    ensures { IsFront cpus.now result }
{
    let mut front = END;
    for (cpu, progress) in cpus.iter().enumerate() {
        front = front.or(cpu, *progress);
    }
    front
}

/// Whether a CPU is open.
fn is_any_open(cpus: &[Progress]) -> bool
    ensures { result ≡ is_any_open cpus.now }
{
    cpus.iter().any(|progress| progress.is_open)
}

/// How far all CPUs are.
#[derive(Drop)]
pub(crate) struct Bounds {
    cpus: Vec<Progress>,
    /// The greatest moment of all lines that were read.
    greatest: Moment,
    front: Front,
}

impl Model for Bounds {
    ghost use Rattle.line_follower.specs.Known.{Known};

    ghost Value = { Known };

    ghost use Rattle.line_follower.specs.Inside.{IsFront};

    ghost view = { λ b. record { cpus = b.cpus.items; greatest = b.greatest.0 } };

    ghost invariant = { λ b. IsFront b.cpus.items b.front };
}

impl Bounds {
    /// Of this many CPUs, of which nothing is known.
    pub(crate) fn new(alloc: Global, count: usize) -> Result<Bounds, NoMemory>
        ensures { IfOk result (λ bounds. bounds ≡ record { cpus = replicate count unknown; greatest = 0 }) }
    {
        let cpus = vec![in alloc; UNKNOWN; count]?;
        let front = front_of(&cpus);
        Ok(Bounds {
            cpus,
            greatest: Moment(0),
            front,
        })
    }

    /// How many CPUs there are.
    pub(crate) fn count(&self) -> usize
        ensures { result ≡ length self.now.cpus }
    {
        self.cpus.len()
    }

    /// The open CPU with the least bound. None if no CPU is open.
    pub(crate) fn awaited(&self) -> Option<usize>
        ensures none { result ≡ None → is_any_open self.now.cpus ≡ false }
        ensures some { IfSome result (λ cpu. (cpu < length self.now.cpus) × (is_any_open self.now.cpus ≡ true)) }
    {
        if !is_any_open(&self.cpus) {
            return None;
        }
        Some(self.front.cpu.min(self.cpus.len() - 1))
    }

    /// Whether nothing that can still come belongs before this place.
    pub(crate) fn is_final(&self, place: Place) -> bool
        ensures is_final { IsTrue result → IsFinal self.now.cpus place }
        ensures is_not { IsFinal self.now.cpus place → IsTrue result }
    {
        self.front.has(place)
    }

    /// These lines were read of a CPU.
    pub(crate) fn read<T>(&mut self, cpu: CpuId, lines: &[Line<T>])
        requires { cpu.0 < length self.old.cpus }
        ensures { self.new ≡ known_after self.old (page cpu.0 lines.now) }
    {
        let progress = &mut self.cpus[cpu.0 as usize];
        progress.bound = greatest_moment(progress.bound, lines);
        self.greatest = greatest_moment(self.greatest, lines);
        self.front = front_of(&self.cpus);
    }

    /// Nothing came of a CPU for a round.
    pub(crate) fn quiet<T>(&mut self, cpu: CpuId)
        requires { cpu.0 < length self.old.cpus }
        ensures { self.new ≡ known_after {T = T} self.old (quiet cpu.0) }
    {
        let progress = &mut self.cpus[cpu.0 as usize];
        progress.bound = Moment(progress.bound.0.max(progress.seen.0));
        progress.seen = self.greatest;
        self.front = front_of(&self.cpus);
    }

    /// A CPU ended.
    pub(crate) fn end<T>(&mut self, cpu: CpuId)
        requires { cpu.0 < length self.old.cpus }
        ensures { self.new ≡ known_after {T = T} self.old (ended cpu.0) }
    {
        self.cpus[cpu.0 as usize].is_open = false;
        self.front = front_of(&self.cpus);
    }
}
