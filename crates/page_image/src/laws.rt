//! The numbers of an image's header and of a slot's, each by its value; and that long enough bytes are a slot.
ghost use Rattle.std.specs.Prelude.{◌≡◌, ℕ, ◌^◌, ◌≤◌, List, length};
ghost use Rattle.page_image.specs.Slot.{SlotHeader, slot_bytes};
ghost use Rattle.page_image.specs.declared.image.header.TheConstants.{HEADER, MISSED, NUMBER, STORED};
ghost use Rattle.page_image.specs.declared.slot.TheConstants.{SLOT_HEADER};

/// The numbers of an image's header have the values that are stated here; contracts name most of them, so that one that
/// is changed is refused here.
pub fn constants_are()
    ensures header { HEADER ≡ 16 }
    ensures number { NUMBER ≡ 8 }
    ensures stored { STORED ≡ 2 ^ 30 }
    ensures missed { MISSED ≡ 2 ^ 31 }
    ensures slot_header { SLOT_HEADER ≡ 48 }
{}

/// Bytes that are as many as a slot's header, or more, are a slot. So what is said of a store into a slot is said of
/// any such bytes.
pub fn long_bytes_are_a_slot(bytes: &[u8])
    requires { SLOT_HEADER ≤ length bytes.now }
    ensures { (header : SlotHeader) × (behind : List ℕ) × (bytes.now ≡ slot_bytes header behind) }
{
    let _bytes = bytes;
}
