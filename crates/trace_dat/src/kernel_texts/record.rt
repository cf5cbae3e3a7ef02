//! The fields that every event has, at the front of a record.
ghost use Rattle.std.specs.Prelude.{◌≡◌};
ghost use Rattle.trace_dat.specs.kernel_texts.FirstBytes.{common_fields_in};

/// The fields that every event has.
#[derive(Clone, Copy, Debug, PartialEq, Eq)]
pub struct CommonFields {
    /// The number of the event.
    pub event: u16,
    /// The process that wrote it.
    pub pid: i32,
}

/// The fields at the front of a record that every event has: the number of the event in two bytes, two others, and the
/// process in four; None if the record is too short for them.
#[tactic(auto, unfolding(crate::specs::kernel_texts::FirstBytes::common_fields_in))]
pub fn common_fields(payload: &[u8]) -> Option<CommonFields>
    ensures { result ≡ common_fields_in payload.now }
{
    match payload {
        [a, b, _, _, c, d, e, f, ..] => Some(CommonFields {
            event: u16::from_le_bytes([*a, *b]),
            pid: i32::from_le_bytes([*c, *d, *e, *f]),
        }),
        _ => None,
    }
}
