//! The replay of a script over the rings of its CPUs: its lines are obeyed, one after the other.
ghost use Rattle.std.specs.Prelude.{◌≡◌, [], length, All, IsOkUnless, IsSome, IfSome, IfOk, OnOk};
ghost use Rattle.world_model.specs.World as model_world;
ghost use Rattle.text_model.specs.Log as model;
ghost use Rattle.text_model.specs.Script as model_script;
ghost use Rattle.text_model.specs.Script.{deliver as delivers};
ghost use Rattle.text_model.specs.ScriptLimits.{IsWithinLimits};
ghost use Rattle.trace_script.specs.ScriptTypes.{shown_command, shown_line};
ghost use Rattle.script_replay.specs.log.LogTypes.{shown_log_line};
ghost use Rattle.script_replay.specs.RingCommands.{IsOfRing, cpu_of};
ghost use Rattle.script_replay.specs.Collected.{delivery_of};
ghost use Rattle.step_model.specs.RunTexts.{IsStepText};
ghost use Rattle.script_replay.specs.Replay.{IsNewText, IsStateAfter, IsReady, LeadsOn, IsHeadline};
ghost use Rattle.trace_script.specs.declared.replay_fault.ReplayFault.TheVariants.{NoMemory as no_memory};

use crate::Teller;
use crate::delivery::taken_page;
use crate::lane::Lane;
use crate::lanes::make_lane;
use crate::log::LogLine;
use crate::nobody::Nobody;
use crate::reports::Reports;
use crate::world::World;
use collector::deliveries::collect;
use collector::{Added, Collector};
use std::alloc::Global;
use trace_model::{CpuId, FillNo, NoMemory};
use trace_script::{Command, ReplayFault, Script, ScriptLine};

/// A replay between two lines: the lanes that were made so far, each at its CPU's index; the collectors; the log.
#[derive(Drop)]
pub(crate) struct ReplayState<'a, T: Teller> {
    lanes: Vec<Option<Box<Lane<'a>>>>,
    collectors: Vec<Collector>,
    reports: Reports<T>,
}

/// Obeys a line of the ring of this CPU, which is the command's.
#[inline(always)]
fn obey_ring<'a, T: Teller>(
    alloc: Global,
    script: &Script,
    state: &mut ReplayState<'a, T>,
    line: u64,
    cpu: CpuId,
    command: Command<'a>,
) -> Result<(), NoMemory>
    requires ready { IsReady script.now (shown_command command) state.old }
    requires ring { IsOfRing (shown_command command) }
    requires cpu { cpu_of (shown_command command) ≡ cpu.0 }
    ensures { OnOk result (LeadsOn script.now (line, shown_command command.entry) state.old state.new) }
{
    make_lane(alloc, script, &mut state.lanes, cpu)?;
    match &mut state.lanes[cpu.0 as usize] {
        Some(lane) => lane.obey(alloc, line, command, &mut state.reports),
        None => unreachable!(),
    }
}

/// What is logged of a page that was delivered.
fn reported_delivery(added: Added, line: u64, collector: usize, cpu: CpuId, fill: FillNo) -> LogLine
    ensures { shown_log_line result ≡ model.delivery_line line collector cpu.0 fill.0 (delivery_of added) }
{
    match added {
        Added::New => LogLine::New {
            line,
            collector,
            cpu,
            fill,
        },
        Added::Known => LogLine::Known {
            line,
            collector,
            cpu,
            fill,
        },
    }
}

/// Delivers a fill of a CPU to a collector, if it was taken.
#[inline(never)]
fn deliver<T: Teller>(
    state: &mut ReplayState<T>,
    line: u64,
    collector: usize,
    cpu: CpuId,
    fill: FillNo,
) -> Result<(), NoMemory>
    requires { (script : model_script.Script) × IsReady script (delivers collector cpu.0 fill.0) state.old }
    ensures { OnOk result ((script : model_script.Script) → IsReady script (delivers collector cpu.0 fill.0) state.old
        → LeadsOn script (line, delivers collector cpu.0 fill.0) state.old state.new) }
{
    let Some(parcel) = taken_page(state.lanes.as_slice(), cpu, fill) else {
        return state.reports.report_delivery(LogLine::NotTaken {
            line,
            collector,
            cpu,
            fill,
        });
    };
    let added = collect(&mut state.collectors[collector], parcel)?;
    state
        .reports
        .report_delivery(reported_delivery(added, line, collector, cpu, fill))?;
    match added {
        Added::New => state.reports.report_gains(parcel),
        Added::Known => Ok(()),
    }
}

/// Obeys a line of the script. What it leaves if memory is refused is not used. `obey_ring` and `Lane::obey` are
/// inlined into each arm, which knows the kind, so that it is matched once.
#[inline(always)]
fn obey<'a, T: Teller>(
    alloc: Global,
    script: &Script,
    state: &mut ReplayState<'a, T>,
    line: ScriptLine<'a>,
) -> Result<(), NoMemory>
    requires { IsReady script.now (shown_command line.command) state.old }
    ensures { OnOk result (LeadsOn script.now (shown_line line.entry) state.old state.new) }
{
    let ScriptLine { number, command } = line;
    match command {
        Command::Deliver {
            collector,
            cpu,
            fill,
        } => deliver(state, number, collector, cpu, fill),
        Command::Begin { cpu, .. } => obey_ring(alloc, script, state, number, cpu, command),
        Command::Step { cpu, .. } => obey_ring(alloc, script, state, number, cpu, command),
        Command::Finish { cpu } => obey_ring(alloc, script, state, number, cpu, command),
        Command::Write { cpu, .. } => obey_ring(alloc, script, state, number, cpu, command),
        Command::Close { cpu } => obey_ring(alloc, script, state, number, cpu, command),
        Command::StepReader { cpu, .. } => obey_ring(alloc, script, state, number, cpu, command),
        Command::Take { cpu } => obey_ring(alloc, script, state, number, cpu, command),
        Command::Wish { cpu } => obey_ring(alloc, script, state, number, cpu, command),
    }
}

/// Makes `count` collectors that keep nothing.
fn new_collectors(alloc: Global, count: usize) -> Result<Vec<Collector>, NoMemory>
    ensures count { IfOk result (λ collectors. length collectors.items ≡ count) }
    ensures new { IfOk result (λ collectors. All (λ kept. kept ≡ []) collectors.items) }
{
    let mut collectors = Vec::new(alloc);
    while collectors.len() < count {
        collectors.push(Collector::new(alloc))?;
    }
    Ok(collectors)
}

/// Obeys all lines of the script, and tells their steps to this teller, which has told what comes before the first
/// line. It isn't inlined: in a function of its own its numbers stay in registers.
#[inline(never)]
fn obey_all<'a, T: Teller>(
    alloc: Global,
    script: &'a Script,
    steps: T,
) -> Result<ReplayState<'a, T>, NoMemory>
    requires { IfSome (T.told steps) (λ told. IsNewText script.now told) }
    ensures limits { OnOk result (IsWithinLimits script.now) }
    ensures part_way { IfOk result (λ state. IsStateAfter script.now script.now.commands state) }
    ensures told { IfOk result (λ state. IsSome (T.told steps) → IsSome state.reports.steps) }
{
    let commands = script.commands();
    let mut state = ReplayState {
        lanes: Vec::new(alloc),
        collectors: new_collectors(alloc, script.collectors())?,
        reports: Reports {
            log: Vec::new(alloc),
            steps,
        },
    };
    for index in 0..commands.len() {
        obey(alloc, script, &mut state, commands.line(index))?;
    }
    Ok(state)
}

/// The world of a script: its lines are replayed over rings, one for each CPU of whose ring they ask anything.
pub fn world_of(alloc: Global, script: &Script) -> Result<World, NoMemory>
    ensures { IfOk result (λ world. IsHeadline script.now world.collectors.items world.log.items) }
{
    let ReplayState {
        lanes,
        collectors,
        reports,
    } = obey_all(alloc, script, Nobody)?;
    drop(lanes);
    let Reports { log, steps } = reports;
    drop(steps);
    Ok(World { collectors, log })
}

/// Replays a script, with the fault type of `run`. It answers no fault but `NoMemory`.
pub fn replay(alloc: Global, script: &Script) -> Result<World, ReplayFault>
    ensures headline { IfOk result (λ world. IsHeadline script.now world.collectors.items world.log.items) }
    ensures memory { IsOkUnless result no_memory }
{
    Ok(world_of(alloc, script)?)
}

/// Replays a script, and tells each step of its lines, and what each delivery brings, to this teller, which has told
/// what comes before the first line. Gives it back with the text of all, if it makes one.
pub fn told_replay<T: Teller>(alloc: Global, script: &Script, teller: T) -> Result<T, NoMemory>
    requires { IfSome (T.told teller) (λ told. IsNewText script.now told) }
    ensures told { IfOk result (λ told. IfSome (T.told told) (λ steps. (world : model_world.World)
        × IsStepText script.now world steps.text)) }
    ensures tells { IfOk result (λ told. IsSome (T.told teller) → IsSome (T.told told)) }
{
    let ReplayState {
        lanes,
        collectors,
        reports,
    } = obey_all(alloc, script, teller)?;
    drop(lanes);
    drop(collectors);
    let Reports { log, steps } = reports;
    drop(log);
    Ok(steps)
}
