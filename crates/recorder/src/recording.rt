//! A thread records events; and the page that it wrote last is closed.
ghost use Rattle.std.specs.Prelude.{IfOk};
ghost use Rattle.tracering.specs.Rings.{IsWriter};

use tracering::rings::{WriteFault, Writer};

/// How often each thread records its event.
const TIMES: u64 = 30;

/// Records this event again and again, a moment after the other. No call waits for a reader, or takes memory. A record
/// has whole words of 4 bytes: after an event of another length it has zeros.
pub fn record(writer: Writer, event: &[u8]) -> Result<Writer, WriteFault>
    requires { IsWriter writer }
    ensures { IfOk result (λ writer. IsWriter writer) }
{
    let mut writer = writer;
    for moment in 0..TIMES {
        writer.write(moment, event)?;
    }
    Ok(writer)
}

/// Closes the page that is written, so that its records can be taken too. In a full ring this overwrites the oldest
/// page: whoever wants that one takes it before.
pub fn close(writer: Writer)
    requires { IsWriter writer }
{
    let mut writer = writer;
    writer.begin_close();
    writer.finish_top();
}
