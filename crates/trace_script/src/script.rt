//! A script as a value.
use crate::commands::Commands;
use crate::header::Header;
use std::marker::Model;
use trace_model::FillNo;

/// A script: its header, its rings' first fill and its commands, all within the limits of scripts.
#[derive(Debug, Drop)]
pub struct Script {
    pages: usize,
    size: usize,
    cpus: u32,
    collectors: usize,
    start: FillNo,
    commands: Commands,
}

impl Model for Script {
    ghost use Rattle.text_model.specs.Script.{Script as ScriptSeen};
    ghost use Rattle.text_model.specs.ScriptLimits.{IsWithinLimits};
    ghost use Rattle.trace_script.specs.Value.{script_seen};

    ghost Value = { ScriptSeen };

    ghost view = { script_seen };

    ghost invariant = { λ s. IsWithinLimits (script_seen s) };
}

impl Script {
    ghost use Rattle.std.specs.Prelude.{◌≡◌, ◌+◌, ◌%◌, ◌≤◌, ◌<◌};
    ghost use Rattle.trace_model.specs.declared.limits.TheConstants.{MIN_PAGES, MAX_PAGES, MIN_SIZE, MAX_SIZE};
    ghost use Rattle.trace_model.specs.declared.limits.TheConstants.{LINK_FILLS};
    ghost use Rattle.text_model.specs.declared.script_limits.TheConstants.{MIN_SCRIPT_CPUS, MAX_SCRIPT_CPUS};
    ghost use Rattle.text_model.specs.declared.script_limits.TheConstants.{MIN_SCRIPT_COLLECTORS};
    ghost use Rattle.text_model.specs.declared.script_limits.TheConstants.{MAX_SCRIPT_COLLECTORS};
    ghost use Rattle.text_model.specs.ScriptLimits.{IsWithinLimits};
    ghost use Rattle.trace_script.specs.ScriptTypes.{script_of};

    /// The script of this header, first fill and commands.
    pub(crate) fn of(header: Header, start: FillNo, commands: Commands) -> Script
        requires { IsWithinLimits (script_of header start.0 commands) }
        ensures { result ≡ script_of header start.0 commands }
    {
        Script {
            pages: header.pages,
            size: header.size,
            cpus: header.cpus,
            collectors: usize::from(header.collectors),
            start,
            commands,
        }
    }

    /// The pages of a ring, without its spare.
    pub fn pages(&self) -> usize
        ensures pages { result ≡ self.now.pages }
        ensures least { MIN_PAGES ≤ result }
        ensures most { result ≤ MAX_PAGES }
    {
        self.pages
    }

    /// The data size of a page, in bytes.
    pub fn size(&self) -> usize
        ensures size { result ≡ self.now.size }
        ensures least { MIN_SIZE ≤ result }
        ensures most { result ≤ MAX_SIZE }
        ensures words { result % 4 ≡ 0 }
    {
        self.size
    }

    /// How many CPUs there are; each command's CPU is below this.
    pub fn cpus(&self) -> u32
        ensures cpus { result ≡ self.now.cpus }
        ensures least { MIN_SCRIPT_CPUS ≤ result }
        ensures most { result ≤ MAX_SCRIPT_CPUS }
    {
        self.cpus
    }

    /// How many collectors there are; each delivery's collector is below this.
    pub fn collectors(&self) -> usize
        ensures collectors { result ≡ self.now.collectors }
        ensures least { MIN_SCRIPT_COLLECTORS ≤ result }
        ensures most { result ≤ MAX_SCRIPT_COLLECTORS }
    {
        self.collectors
    }

    /// The number of each ring's first fill. It leaves a number for each page.
    pub fn start(&self) -> FillNo
        ensures start { result.0 ≡ self.now.start }
        ensures most { result.0 + self.now.pages < LINK_FILLS }
    {
        self.start
    }

    /// The commands, in the order of their lines. With the header they are within the limits of scripts.
    pub fn commands(&self) -> &Commands
        ensures commands { result.now ≡ self.now.commands }
        ensures limits { IsWithinLimits self.now }
    {
        &self.commands
    }
}
