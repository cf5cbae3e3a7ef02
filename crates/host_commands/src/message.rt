//! What the program says on standard error of a file.
use capture_text::shown_byte;
use event_fields::MalformedEvent;
use std::fmt;
use std::fmt::Write;
use trace_model::CpuId;

/// What is the matter with a file.
#[derive(Clone, Copy, Debug, PartialEq, Eq)]
pub enum Trouble {
    /// It can't be opened.
    Unopened,
    /// It can't be read to its end.
    Unread,
    /// It isn't what it was when it was looked at.
    Changed,
    /// It can't be written to its end.
    Unwritten,
    /// It is a file of trace-cmd whose pages are compressed.
    Compressed,
    /// It has another fault, whose line is printed.
    Malformed,
}

/// The line for a file, without a line feed. It takes no memory.
#[derive(Clone, Copy, Debug)]
pub struct FileMessage<'a> {
    /// What is the matter with it.
    pub trouble: Trouble,
    /// Its name, as it was given.
    pub name: &'a str,
}

impl<'a> fmt::Display for FileMessage<'a> {
    ghost use Rattle.std.specs.Prelude.{Some};
    ghost use Rattle.host_commands.specs.Messages.{message_text};

    ghost output = { λ m. Some (message_text m.trouble m.name.now) };

    fn fmt<W: fmt::Write>(&self, f: &mut fmt::Formatter<W>) -> fmt::Result {
        let name = self.name;
        match self.trouble {
            Trouble::Unopened => write!(f, "tracering: cannot open {name}"),
            Trouble::Unread => write!(f, "tracering: cannot read {name}"),
            Trouble::Changed => write!(f, "tracering: {name} changed while it was read"),
            Trouble::Unwritten => write!(f, "tracering: cannot write {name}"),
            Trouble::Compressed => write!(
                f,
                "tracering: {name} is compressed: \
                trace-cmd convert -i {name} --compression none -o FILE.dat makes one that is not"
            ),
            Trouble::Malformed => write!(f, "tracering: {name} is malformed"),
        }
    }
}

/// The line for an event whose format is malformed, without a line feed. It takes no memory.
#[derive(Clone, Copy, Debug)]
pub struct FormatMessage<'a> {
    /// The event.
    pub event: &'a MalformedEvent,
}

/// A name as lines show it.
#[derive(Clone, Copy)]
struct ShownName<'a> {
    name: &'a [u8],
}

impl<'a> fmt::Display for ShownName<'a> {
    fn fmt<W: fmt::Write>(&self, f: &mut fmt::Formatter<W>) -> fmt::Result {
        for byte in self.name {
            f.write_char(char::from(shown_byte(*byte)))?;
        }
        Ok(())
    }
}

impl<'a> fmt::Display for FormatMessage<'a> {
    fn fmt<W: fmt::Write>(&self, f: &mut fmt::Formatter<W>) -> fmt::Result {
        let system = ShownName {
            name: &self.event.system,
        };
        let name = ShownName {
            name: &self.event.name,
        };
        let at = self.event.at;
        write!(
            f,
            "tracering: the format of {system}:{name} is malformed at byte {at}"
        )
    }
}

/// The line for instances that aren't listed, without a line feed: how many there are, and their names. It takes no
/// memory.
#[derive(Clone, Copy, Debug)]
pub struct InstancesMessage<'a> {
    /// Their names.
    pub others: &'a [Vec<u8>],
}

impl<'a> fmt::Display for InstancesMessage<'a> {
    fn fmt<W: fmt::Write>(&self, f: &mut fmt::Formatter<W>) -> fmt::Result {
        let count = self.others.len();
        write!(f, "tracering: instances that are not listed: {count}")?;
        for other in self.others {
            let name = ShownName { name: other };
            write!(f, " {name}")?;
        }
        Ok(())
    }
}

/// Why files aren't followed: the line for it, without a line feed. It takes no memory.
#[derive(Clone, Copy, Debug, PartialEq, Eq)]
pub enum NotFollowed<'a> {
    /// More than one file is of this CPU.
    Twice(CpuId),
    /// Below this folder are CPUs with numbers that are too high.
    TooManyCpus(&'a str),
}

impl<'a> fmt::Display for NotFollowed<'a> {
    fn fmt<W: fmt::Write>(&self, f: &mut fmt::Formatter<W>) -> fmt::Result {
        match self {
            NotFollowed::Twice(cpu) => {
                let cpu = cpu.0;
                write!(f, "tracering: more than one FILE is of CPU {cpu}")
            }
            NotFollowed::TooManyCpus(folder) => {
                write!(f, "tracering: a CPU of {folder} is above 255")
            }
        }
    }
}
