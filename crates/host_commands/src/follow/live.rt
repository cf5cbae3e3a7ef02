//! What happens with the inputs, as it happens.
ghost use Rattle.std.specs.Prelude.{◌<◌, ⊤, IfOk, IfSome};
ghost use Rattle.trace_model.specs.declared.limits.TheConstants.{MAX_CPUS};
ghost use Rattle.live_listing.specs.Following.{cpu_of};

use crate::follow::files::FollowedFile;
use crate::follow::reading::{Bell, Outlet, Piece, read_file};
use crate::inputs::Trial;
use crate::message::Trouble;
use crossbeam_channel::{Receiver, TryRecvError, bounded};
use live_listing::{Happening, Happenings};
use std::alloc::{AllocError, Global};
use std::sync::{Arc, Wait};
use std::thread;
use std::thread::{Parker, Threads};
use std::time::{Duration, Instant};
use trace_model::{CpuId, NoMemory};

/// How many bytes of an input may wait to be taken.
const ROOM: usize = 4 << 20;

/// The input of a CPU, which a thread reads.
#[derive(Drop)]
struct Inlet {
    cpu: CpuId,
    pieces: Receiver<Piece>,
    /// Whether more may come.
    is_open: bool,
    /// Whether a page was taken in this round.
    has_come: bool,
    /// Whether a round was over without a page since the last one.
    is_quiet: bool,
    /// Why it wasn't read to its end, if it wasn't.
    trouble: Option<Trouble>,
    ghost in_range: { cpu.0 < MAX_CPUS },
}

impl Inlet {
    /// The input of a CPU of which nothing came yet.
    fn new(cpu: CpuId, pieces: Receiver<Piece>) -> Inlet
        requires { cpu.0 < MAX_CPUS }
    {
        Inlet {
            cpu,
            pieces,
            is_open: true,
            has_come: false,
            is_quiet: false,
            trouble: None,
        }
    }

    /// Notes a page, and gives it.
    fn page(&mut self, bytes: Vec<u8>) -> Happening
        ensures { cpu_of result < MAX_CPUS }
    {
        self.has_come = true;
        self.is_quiet = false;
        Happening::Page(self.cpu, bytes)
    }

    /// Notes that nothing more comes, since a read failed.
    fn fail(&mut self, trouble: Trouble) -> Happening
        ensures { cpu_of result < MAX_CPUS }
    {
        self.is_open = false;
        self.trouble = Some(trouble);
        Happening::NotRead(self.cpu)
    }

    /// Notes that nothing more comes.
    fn end(&mut self) -> Happening
        ensures { cpu_of result < MAX_CPUS }
    {
        self.is_open = false;
        Happening::Ended(self.cpu)
    }

    /// What came of it next, if anything did.
    fn take<T: Wait>(&mut self, threads: &T) -> Option<Result<Happening, NoMemory>>
        ensures { IfSome result (λ taken. IfOk taken (λ happening. cpu_of happening < MAX_CPUS)) }
    {
        if !self.is_open {
            return None;
        }
        match self.pieces.try_recv(threads) {
            Ok(Piece::Page(bytes)) => Some(Ok(self.page(bytes))),
            Ok(Piece::Failed(trouble)) => Some(Ok(self.fail(trouble))),
            Ok(Piece::NoMemory) => Some(Err(NoMemory)),
            Err(TryRecvError::Disconnected) => Some(Ok(self.end())),
            Err(TryRecvError::Empty) => None,
        }
    }

    /// Whether its next page is waited for before those of others.
    fn is_awaited(&self) -> bool {
        self.is_open && !self.is_quiet
    }

    /// Ends a round, and answers whether nothing came of it.
    fn end_round(&mut self) -> bool {
        let is_quiet = self.is_open && !self.has_come && self.pieces.is_empty();
        self.has_come = false;
        self.is_quiet |= is_quiet;
        is_quiet
    }
}

/// Inputs that are read by threads.
///
/// Time is cut into rounds. At the end of each it is said which inputs were quiet.
#[derive(Drop)]
pub(crate) struct Live<'a, 'b, T> {
    rt: &'a HostRuntime,
    threads: &'b T,
    inlets: Vec<Inlet>,
    /// Rung after each piece, and when an input ends.
    bell: Bell,
    round: Duration,
    /// When this round is over; `None` if the clock can't be read.
    end: Option<Instant>,
    /// After a round, how many inputs were looked at to find those that were quiet.
    looked_at: Option<usize>,
    /// The index of the input that has its turn if that of the first CPU is quiet.
    turn: usize,
}

/// The ends of a thread's channel.
fn new_channel(
    alloc: Global,
    page: usize,
    bell: &Bell,
) -> Result<(Outlet, Receiver<Piece>), AllocError>
    requires { 0 < page }
{
    let (sender, pieces) = bounded(alloc, (ROOM / page).max(1))?;
    let outlet = Outlet {
        pieces: sender,
        bell: Arc::try_clone(bell)?,
    };
    Ok((outlet, pieces))
}

/// Starts the thread that reads a file.
fn start_reading<T: Threads + Wait + Copy + Send + 'static>(
    rt: &HostRuntime,
    threads: &T,
    file: &FollowedFile,
    page: usize,
    bell: &Bell,
) -> Result<Inlet, Trial<'static>>
    requires { 0 < page }
{
    let Ok((outlet, pieces)) = new_channel(rt.alloc(), page, bell) else {
        return Err(Trial::NoMemory);
    };
    let Ok(path) = file.path.clone() else {
        return Err(Trial::NoMemory);
    };
    let (host, waiting) = (*rt, *threads);
    let started = thread::spawn(threads, move || {
        read_file(host, waiting, path, page, outlet)
    });
    if started.is_err() {
        return Err(Trial::NoThread);
    }
    Ok(Inlet::new(file.cpu, pieces))
}

/// Starts a thread for each of these files.
fn start_all<T: Threads + Wait + Copy + Send + 'static>(
    rt: &HostRuntime,
    threads: &T,
    files: &[FollowedFile],
    page: usize,
    bell: &Bell,
) -> Result<Vec<Inlet>, Trial<'static>>
    requires { 0 < page }
{
    let mut inlets = Vec::new(rt.alloc());
    for file in files {
        let inlet = start_reading(rt, threads, file, page, bell)?;
        if inlets.push(inlet).is_err() {
            return Err(Trial::NoMemory);
        }
    }
    Ok(inlets)
}

impl<'a, 'b, T: Threads + Wait + Copy + Send + 'static> Live<'a, 'b, T> {
    /// Starts to read these files by pages of so many bytes. The threads aren't joined: one that waits for bytes can't
    /// be ended, and ends with the process.
    pub(crate) fn start(
        rt: &'a HostRuntime,
        threads: &'b T,
        files: &[FollowedFile],
        page: usize,
        round: Duration,
    ) -> Result<Live<'a, 'b, T>, Trial<'static>>
        requires { 0 < page }
    {
        let Ok(bell) = Arc::new(rt.alloc(), Parker::new()) else {
            return Err(Trial::NoMemory);
        };
        let inlets = start_all(rt, threads, files, page, &bell)?;
        let mut live = Live {
            rt,
            threads,
            inlets,
            bell,
            round,
            end: None,
            looked_at: None,
            turn: 0,
        };
        live.begin_round();
        Ok(live)
    }
}

impl<'a, 'b, T> Live<'a, 'b, T> {
    /// Why the input of a CPU wasn't read to its end, if it wasn't.
    pub(crate) fn trouble_of(&self, cpu: CpuId) -> Option<Trouble> {
        self.inlets.iter().find(|inlet| inlet.cpu == cpu)?.trouble
    }

    /// Whether more may come.
    fn is_open(&self) -> bool {
        self.inlets.iter().any(|inlet| inlet.is_open)
    }

    /// Begins a round, from now on.
    fn begin_round(&mut self) {
        self.looked_at = None;
        self.end = match Instant::now(self.rt) {
            Ok(now) => now.checked_add(self.round),
            Err(_) => None,
        };
    }

    /// How much is left of the round; nothing if the clock can't be read.
    fn time_left(&self) -> Duration {
        match (self.end, Instant::now(self.rt)) {
            (Some(end), Ok(now)) => end.saturating_duration_since(now),
            _ => Duration::ZERO,
        }
    }

    /// The next CPU of which nothing came in the round, if it is over. After the last one a round begins.
    fn next_quiet(&mut self) -> Option<CpuId>
        ensures { IfSome result (λ cpu. cpu.0 < MAX_CPUS) }
    {
        let from = match self.looked_at {
            Some(count) => count,
            None if self.time_left().is_zero() => 0,
            None => return None,
        };
        let count = self.inlets.len();
        for place in from..count {
            let inlet = &mut self.inlets[place];
            if inlet.end_round() {
                let cpu = inlet.cpu;
                self.looked_at = Some(place + 1);
                return Some(cpu);
            }
        }
        self.begin_round();
        None
    }
}

impl<'a, 'b, T: Wait> Live<'a, 'b, T> {
    /// What came of any input, in turns.
    fn take_any(&mut self) -> Option<Result<Happening, NoMemory>>
        ensures { IfSome result (λ taken. IfOk taken (λ happening. cpu_of happening < MAX_CPUS)) }
    {
        let count = self.inlets.len();
        for tried in 0..count {
            let _tried = tried;
            if self.turn >= count {
                self.turn = 0;
            }
            let taken = self.inlets[self.turn].take(self.threads);
            self.turn += 1;
            if taken.is_some() {
                return taken;
            }
        }
        None
    }

    /// What came of this CPU. If nothing did, and it is quiet, then what came of any.
    fn take(&mut self, first: CpuId) -> Option<Result<Happening, NoMemory>>
        ensures { IfSome result (λ taken. IfOk taken (λ happening. cpu_of happening < MAX_CPUS)) }
    {
        let threads = self.threads;
        for inlet in &mut self.inlets {
            if inlet.cpu == first {
                let taken = inlet.take(threads);
                if taken.is_some() || inlet.is_awaited() {
                    return taken;
                }
            }
        }
        self.take_any()
    }
}

impl<'a, 'b, T: Wait> Happenings for Live<'a, 'b, T> {
    ghost gives = { λ _ _ _. ⊤ };

    fn next(&mut self, first: CpuId) -> Result<Happening, NoMemory> {
        let threads = self.threads;
        for _ in threads.forever() {
            if let Some(cpu) = self.next_quiet() {
                return Ok(Happening::Quiet(cpu));
            }
            if let Some(taken) = self.take(first) {
                return taken;
            }
            if !self.is_open() {
                return Ok(Happening::Ended(CpuId(0)));
            }
            let left = self.time_left();
            self.bell.park_timeout(threads, left);
        }
        unreachable!()
    }
}
