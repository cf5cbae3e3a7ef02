//! What the program says of how a run ends, and the exit status.
use crate::inputs::Trial;
use crate::message::{FileMessage, Trouble};
use crate::named::Named;
use capture::files::FileFault;
use collect_command::{Ending, Outcome};
use command_io::{
    END_FAILED, EndFault, INPUT_TOO_LONG, Std, THREAD_LINE, USAGE, print_memory_line, write_text,
};
use trace_dat::Cause;

/// Says a line.
fn tell_line(rt: &HostRuntime, line: &str) {
    let _ = eprintln!(rt; "{line}");
}

/// Says why nothing is done, and gives the exit status.
pub(crate) fn refuse(rt: &HostRuntime, sentence: &str) -> u8 {
    tell_line(rt, sentence);
    USAGE
}

/// Says what is the matter with a file.
pub(crate) fn tell_file(rt: &HostRuntime, message: FileMessage<'_>) {
    let _ = eprintln!(rt; "{message}");
}

/// Says what is the matter with the input of this index.
fn tell_input<N: Named>(rt: &HostRuntime, inputs: &[N], trouble: Trouble, index: usize) {
    let name = match inputs.get(index) {
        Some(input) => input.name(),
        None => "",
    };
    tell_file(rt, FileMessage { trouble, name });
}

/// Says what is the matter with standard output, unless nobody reads it any more.
fn tell_output(rt: &HostRuntime, fault: Option<EndFault>) {
    if let Some(line) = fault.and_then(|fault| fault.message()) {
        tell_line(rt, line);
    }
}

/// What is the matter with a malformed file of trace-cmd.
fn trouble_of(fault: FileFault) -> Trouble {
    match fault {
        FileFault::Format(fault) if fault.cause == Cause::Compressed => Trouble::Compressed,
        _ => Trouble::Malformed,
    }
}

/// Says what the ending of a run over these inputs leaves to be said, and gives the exit status. `fault` is that of
/// standard output.
pub(crate) fn tell_ending<N: Named>(
    rt: &HostRuntime,
    inputs: &[N],
    ending: Ending,
    fault: Option<EndFault>,
) -> u8 {
    match ending {
        Ending::NotRead(input) => tell_input(rt, inputs, Trouble::Unread, input),
        Ending::Changed(input) => tell_input(rt, inputs, Trouble::Changed, input),
        Ending::Malformed(input) => tell_input(rt, inputs, Trouble::Malformed, input),
        Ending::MalformedFile { input, fault } => tell_input(rt, inputs, trouble_of(fault), input),
        Ending::TooLong(_) => tell_line(rt, INPUT_TOO_LONG),
        Ending::NotWritten => tell_output(rt, fault),
        Ending::Done | Ending::Damaged | Ending::Hidden | Ending::Numbers | Ending::NoMemory => {}
    }
    ending.status()
}

/// Says what is left to be said of a run that may keep new pieces of these inputs, and gives the exit status. `fault`
/// is that of standard output.
pub(crate) fn tell_outcome<N: Named>(
    rt: &HostRuntime,
    inputs: &[N],
    keep: Option<&str>,
    outcome: Outcome,
    fault: Option<EndFault>,
) -> u8 {
    if let (Some(name), false) = (keep, outcome.is_kept) {
        let trouble = Trouble::Unwritten;
        tell_file(rt, FileMessage { trouble, name });
    }
    tell_ending(rt, inputs, outcome.ending, fault);
    outcome.status()
}

/// Says that memory was refused, and gives the exit status.
fn tell_no_memory(rt: &HostRuntime) -> u8 {
    let mut output = Std::new(rt.stdout());
    let status = print_memory_line(&mut output);
    tell_output(rt, EndFault::of_output(&output));
    status
}

/// Says that a thread couldn't be started, and gives the exit status.
fn tell_no_thread(rt: &HostRuntime) -> u8 {
    let mut output = Std::new(rt.stdout());
    let status = write_text(&mut output, THREAD_LINE, END_FAILED, END_FAILED);
    tell_output(rt, EndFault::of_output(&output));
    status
}

/// Gives the exit status of a run. If files couldn't be opened, or memory or a thread was refused,
/// says so first.
pub(crate) fn tell_trial(rt: &HostRuntime, run: Result<u8, Trial<'_>>) -> u8 {
    match run {
        Ok(status) => status,
        Err(Trial::File(message)) => {
            tell_file(rt, message);
            END_FAILED
        }
        Err(Trial::NoMemory) => tell_no_memory(rt),
        Err(Trial::NoThread) => tell_no_thread(rt),
    }
}
