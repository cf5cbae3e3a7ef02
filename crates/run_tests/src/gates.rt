//! Gates of several kinds.
use std::sync::atomic::{AtomicBool, AtomicU64, Ordering};
use std::thread;
use trace_model::{CpuId, FillNo};
use trace_run::{Gate, Who};

/// The most turns for which a thread is held.
const TURNS: u32 = 1_000_000;

/// Lets nothing pass.
pub struct Shut;

impl Gate for Shut {
    ghost use Rattle.std.specs.Prelude.{◌≡◌, false};

    ghost answers = { λ gate who cpu fill answer. answer ≡ false };

    fn pass(&self, _who: Who, _cpu: CpuId, _fill: FillNo) -> bool {
        false
    }
}

/// Lets all pass but one end at this fill.
#[derive(Drop)]
pub struct ShutAt {
    pub who: Who,
    pub fill: FillNo,
}

impl Gate for ShutAt {
    ghost answers = { λ gate who cpu fill answer. Unit {0} };

    fn pass(&self, who: Who, _cpu: CpuId, fill: FillNo) -> bool {
        who != self.who || fill != self.fill
    }
}

/// Counts how often writers and readers ask it, and lets all pass.
#[derive(Drop)]
pub struct Counting {
    pub writers: AtomicU64,
    pub readers: AtomicU64,
}

impl Counting {
    pub fn new() -> Counting {
        Counting {
            writers: AtomicU64::new(0),
            readers: AtomicU64::new(0),
        }
    }
}

impl Gate for Counting {
    ghost answers = { λ gate who cpu fill answer. Unit {0} };

    fn pass(&self, who: Who, _cpu: CpuId, _fill: FillNo) -> bool {
        let asked = match who {
            Who::Writer => &self.writers,
            Who::Reader => &self.readers,
        };
        let _before = asked.fetch_add(1, Ordering::SeqCst);
        true
    }
}

/// Where a gate is asked: by which end, of which CPU's ring, and at which fill.
pub type Asked = (Who, u32, u64);

/// What a gate is asked, as it is given: the end, the CPU and the fill.
#[derive(Clone, Copy, Debug, PartialEq, Eq)]
struct Place {
    who: Who,
    cpu: CpuId,
    fill: FillNo,
}

fn place_of(asked: Asked) -> Place {
    let (who, cpu, fill) = asked;
    Place {
        who,
        cpu: CpuId(cpu),
        fill: FillNo(fill),
    }
}

/// Holds an end at one place until an end has passed another one.
#[derive(Drop)]
pub struct Meeting {
    held: Place,
    awaited: Place,
    has_passed: AtomicBool,
}

impl Meeting {
    pub fn new(held: Asked, awaited: Asked) -> Meeting {
        Meeting {
            held: place_of(held),
            awaited: place_of(awaited),
            has_passed: AtomicBool::new(false),
        }
    }

    /// Gives way to other threads until an end has passed the place that is awaited.
    fn waits(&self) -> bool {
        for _ in 0..TURNS {
            if self.has_passed.load(Ordering::SeqCst) {
                return true;
            }
            thread::yield_now();
        }
        false
    }
}

impl Gate for Meeting {
    ghost answers = { λ gate who cpu fill answer. Unit {0} };

    fn pass(&self, who: Who, cpu: CpuId, fill: FillNo) -> bool {
        let place = Place { who, cpu, fill };
        if place == self.awaited {
            self.has_passed.store(true, Ordering::SeqCst);
        }
        place != self.held || self.waits()
    }
}
