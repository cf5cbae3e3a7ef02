//! Reads on until it is decided what the next piece is.
ghost use Rattle.std.specs.Prelude.{◌≡◌, ◌<◌, ◌↔◌, true, false, [], IsErr, OnOk};
ghost use Rattle.parcel_streams.specs.source.Held.{held_unread, held_given};
ghost use Rattle.parcel_streams.specs.source.Reading.{ReadsOn, IsEnough};

use crate::source::window::Window;
use crate::wanted;
use command_io::Source;
use std::io;

/// Reads on until what is there decides what the next piece is, or the source is at its end.
pub(crate) fn fill<R: Source>(window: &mut Window, source: &mut R) -> io::Result<()>
    requires sound { R.failed source.old ≡ false }
    requires none { held_given window.old ≡ [] }
    ensures given { held_given window.new ≡ [] }
    ensures read { ReadsOn (held_unread window.old) (held_unread window.new)
        (R.remaining source.old) (R.remaining source.new) }
    ensures enough { OnOk result (IsEnough (held_unread window.new) (R.remaining source.new)) }
    ensures fails { (R.failed source.new ≡ true) ↔ IsErr result }
{
    while window.unread().len() < wanted(window.unread()) {
        let count = window.read_more(source)?;
        if count == 0 {
            return Ok(());
        }
    }
    Ok(())
}
