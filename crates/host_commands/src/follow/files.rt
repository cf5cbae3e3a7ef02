//! The files that are followed.
ghost use Rattle.std.specs.Prelude.{◌<◌};
ghost use Rattle.trace_model.specs.declared.limits.TheConstants.{MAX_CPUS};

use crate::formats::names_in;
use crate::inputs::{STANDARD_INPUT, Trial, trial_of};
use crate::message::{NotFollowed, Trouble};
use command_line::CpuFile;
use std::{fs, io};
use trace_model::{CpuId, MAX_CPUS};

/// The folder below that of a kernel's trace which has a folder `cpuN` for each CPU.
const CPUS_FOLDER: &str = "per_cpu";

/// How the name of such a folder begins.
const CPU_PREFIX: &str = "cpu";

/// The file in it from which the CPU's pages are read.
const PAGES_FILE: &str = "trace_pipe_raw";

/// A file that is followed. They are in the order of their CPUs.
#[derive(Debug, PartialEq, Eq, PartialOrd, Ord, Drop)]
pub(crate) struct FollowedFile {
    /// The CPU whose pages it has.
    pub cpu: CpuId,
    /// Its path; `-` is standard input.
    pub path: String,
    ghost in_range: { cpu.0 < MAX_CPUS },
}

/// What a call's words say.
#[derive(Debug, Drop)]
pub(crate) enum Files<'b> {
    /// These files are followed, each of another CPU.
    Each(Vec<FollowedFile>),
    /// They can't be followed.
    Refused(NotFollowed<'b>),
}

/// Why a file isn't followed.
enum Unfit<'b> {
    /// The call is refused.
    Refused(NotFollowed<'b>),
    /// There is something with a file.
    Trial(Trial<'b>),
}

/// What an error of a file makes of it.
fn unopened(error: io::Error, name: &str) -> Unfit<'_> {
    Unfit::Trial(trial_of(error, Trouble::Unopened, name))
}

/// Adds a file, which the word `name` names.
fn add_file<'b>(
    files: &mut Vec<FollowedFile>,
    cpu: CpuId,
    path: io::Result<String>,
    name: &'b str,
) -> Result<(), Unfit<'b>> {
    let path = match path {
        Ok(path) => path,
        Err(error) => return Err(unopened(error, name)),
    };
    if cpu.0 >= MAX_CPUS {
        return Err(Unfit::Refused(NotFollowed::TooManyCpus(name)));
    }
    match files.push(FollowedFile { cpu, path }) {
        Ok(()) => Ok(()),
        Err(_) => Err(Unfit::Trial(Trial::NoMemory)),
    }
}

/// The number in the name of a CPU's folder, as in `cpu12`; other names have none.
fn number_in(name: &str) -> Option<u32> {
    name.strip_prefix(CPU_PREFIX)?.parse::<u32>().ok()
}

/// The path of a CPU's pages below a folder of a kernel's trace.
fn pages_path(rt: &HostRuntime, folder: &str, cpu: &str) -> io::Result<String> {
    Ok(format!(in rt.alloc(); "{}/{}/{}/{}", folder, CPUS_FOLDER, cpu, PAGES_FILE)?)
}

/// Adds the files of all CPUs below a folder of a kernel's trace.
fn add_folder<'b>(
    rt: &HostRuntime,
    files: &mut Vec<FollowedFile>,
    folder: &'b str,
) -> Result<(), Unfit<'b>> {
    let below = match format!(in rt.alloc(); "{}/{}", folder, CPUS_FOLDER) {
        Ok(below) => below,
        Err(_) => return Err(Unfit::Trial(Trial::NoMemory)),
    };
    let names = match names_in(rt, below.as_str()) {
        Ok(names) => names,
        Err(error) => return Err(unopened(error, folder)),
    };
    for name in &names {
        if let Some(number) = number_in(name.as_str()) {
            let path = pages_path(rt, folder, name.as_str());
            add_file(files, CpuId(number), path, folder)?;
        }
    }
    Ok(())
}

/// Adds what a word of the call names: a file, or the files below a folder.
fn add_named<'b>(
    rt: &HostRuntime,
    files: &mut Vec<FollowedFile>,
    named: CpuFile<'b>,
) -> Result<(), Unfit<'b>> {
    let name = named.path;
    if name != STANDARD_INPUT {
        match fs::metadata(rt, name) {
            Ok(found) if found.is_dir() => return add_folder(rt, files, name),
            Ok(_) => {}
            Err(error) => return Err(unopened(error, name)),
        }
    }
    let path = String::from_str(rt.alloc(), name);
    match path {
        Ok(path) => add_file(files, named.cpu, Ok(path), name),
        Err(_) => Err(Unfit::Trial(Trial::NoMemory)),
    }
}

/// The CPU that is the first of more than one of these files, which are in the order of their CPUs, if there is one.
fn twice_in(files: &[FollowedFile]) -> Option<CpuId> {
    let mut last = None;
    for file in files {
        if last == Some(file.cpu) {
            return last;
        }
        last = Some(file.cpu);
    }
    None
}

/// The files that the words of a call name.
fn all_named<'b>(rt: &HostRuntime, named: &[CpuFile<'b>]) -> Result<Vec<FollowedFile>, Unfit<'b>> {
    let mut files = Vec::new(rt.alloc());
    for file in named {
        add_named(rt, &mut files, *file)?;
    }
    if files.sort().is_err() {
        return Err(Unfit::Trial(Trial::NoMemory));
    }
    match twice_in(&files) {
        Some(cpu) => Err(Unfit::Refused(NotFollowed::Twice(cpu))),
        None => Ok(files),
    }
}

/// The files that the words of a call name, in the order of their CPUs. Each has to be there; a folder stands for the
/// files of its CPUs.
pub(crate) fn files_of<'b>(
    rt: &HostRuntime,
    named: &[CpuFile<'b>],
) -> Result<Files<'b>, Trial<'b>> {
    match all_named(rt, named) {
        Ok(files) => Ok(Files::Each(files)),
        Err(Unfit::Refused(why)) => Ok(Files::Refused(why)),
        Err(Unfit::Trial(trial)) => Err(trial),
    }
}
