//! Options: what a file has beside its texts and pages.
ghost use Rattle.std.specs.Prelude.{◌<◌, length, map, IfOk};
ghost use Rattle.std.specs.Option.{option_map};
ghost use Rattle.trace_dat.specs.Parts.{seen};
ghost use Rattle.trace_dat.specs.Fields.{Gives, with_front};
ghost use Rattle.trace_dat.specs.Entries.{option_seen, body_at, option_at, options_at};

use crate::fault::ReadError;
use crate::part::Part;

/// The identifier that ends the options.
pub const DONE: u16 = 0;
/// The option that holds the counters of a CPU's ring.
pub const COUNTERS: u16 = 2;
/// The option that describes a trace buffer.
pub const BUFFER: u16 = 3;
/// The option that says what the traced machine is.
pub const MACHINE: u16 = 5;
/// The option that points to the formats of the ring's own events, and the section that holds them.
pub const RING_FORMATS: u16 = 17;
/// The option that points to the formats of the systems' events, and the section that holds them.
pub const FORMATS: u16 = 18;
/// The option that points to the kernel's symbols, and the section that holds them.
pub const SYMBOLS: u16 = 19;
/// The option that points to the names of processes, and the section that holds them.
pub const TASKS: u16 = 21;
/// The section that holds options.
pub const OPTIONS: u16 = 0;

/// An option.
#[derive(Clone, Copy)]
pub(crate) struct Entry<'a> {
    /// What it is.
    pub(crate) id: u16,
    /// The bytes that belong to it.
    pub(crate) body: Part<'a>,
}

/// The option at the front of a part, and what is after it; None where the options end.
#[tactic(auto, unfolding(crate::specs::Entries::option_at, crate::specs::Entries::body_at))]
fn next_option<'a>(part: Part<'a>) -> Result<(Option<Entry<'a>>, Part<'a>), ReadError>
    ensures gives { Gives (λ x. (option_map option_seen x.0, seen x.1)) result (option_at (seen part.entry)) }
    ensures shorter { IfOk result (λ x. length x.1.bytes.now < length part.entry.bytes.now) }
{
    let (id, behind) = part.number16()?;
    if id == DONE {
        return Ok((None, behind));
    }
    let (body, behind) = behind.block32()?;
    let option = Entry { id, body };
    Ok((Some(option), behind))
}

/// Puts the options at the front of a part to the others, and gives what is after the identifier that ends them.
pub(crate) fn put_options<'a>(
    options: &mut Vec<Entry<'a>>,
    part: Part<'a>,
) -> Result<Part<'a>, ReadError>
    ensures { Gives (λ behind. (map option_seen options.new.items, seen behind)) result
        (with_front (map option_seen options.old.items) (options_at (seen part.entry))) }
{
    let mut rest = part;
    loop {
        let (option, behind) = next_option(rest)?;
        let Some(option) = option else {
            return Ok(behind);
        };
        options.push(option)?;
        rest = behind;
    }
}
