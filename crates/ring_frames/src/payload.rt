//! A payload, written to the slot that is lent for it.
ghost use Rattle.std.specs.Prelude.{◌≡◌, ◌≤◌, ◌-◌, ◌++◌, length, replicate};

/// Writes the payload to the beginning of the slot, and zeros after it.
#[inline(always)]
pub fn write_padded(slot: &mut [u8], payload: &[u8])
    requires { length payload.now ≤ length slot.old }
    ensures { slot.new ≡ payload.now ++ replicate (length slot.old - length payload.now) 0 }
{
    let (front, rest) = slot.split_at_mut(payload.len());
    front.copy_from_slice(payload);
    rest.fill(0);
}
