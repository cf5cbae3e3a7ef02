//! The lines of damaged slots, and the line of an input that isn't a region.
ghost use Rattle.std.specs.Prelude.{◌≡◌, flat_map};
ghost use Rattle.text_values.specs.Putting.{Puts};
ghost use Rattle.collect_command.specs.recovery.Lines.{word_fault_name, cause_name, damaged_line, damaged_lines};
ghost use Rattle.collect_command.specs.recovery.Lines.{region_fault_name, place_text, region_line};

use capture_text::Form;
use command_io::Sink;
use fleet_text::{put_cpu, put_json_cpu};
use record_words::WordFault;
use ring_region::{Damaged, Header, Region, RegionFault, SlotCause};
use text_values::Out;

/// What is wrong with a word.
fn word_fault_name(fault: WordFault) -> &'static [u8]
    ensures { result.now ≡ word_fault_name fault }
{
    match fault {
        WordFault::Cut(_) => b"Cut",
        WordFault::BadLength(_) => b"BadLength",
        WordFault::TimeOverflow(_) => b"TimeOverflow",
    }
}

/// What is wrong with a slot.
fn cause_name(cause: SlotCause) -> &'static [u8]
    ensures { result.now ≡ cause_name cause }
{
    match cause {
        SlotCause::OtherCpu => b"OtherCpu",
        SlotCause::Missed => b"Missed",
        SlotCause::BadCommit => b"BadCommit",
        SlotCause::Word(fault) => word_fault_name(fault),
        SlotCause::NumberOverflow => b"NumberOverflow",
        SlotCause::SameFill => b"SameFill",
        SlotCause::Overlap => b"Overlap",
    }
}

/// Puts the line of a damaged slot as text.
fn put_text_damaged<W: Sink>(out: &mut Out<'_, W>, header: &Header, damaged: &Damaged)
    ensures { Puts (damaged_line Form.Text header.now damaged.now) out.old out.new }
{
    out.put(b"damaged ");
    put_cpu(out, header.stream, header.cpu);
    out.put_numbered(b" slot ", damaged.slot as u64);
    out.put_numbered(b" byte ", damaged.at as u64);
    out.put(b": ");
    out.put(cause_name(damaged.cause));
    out.put(b"\n");
}

/// Puts the line of a damaged slot as JSON.
fn put_json_damaged<W: Sink>(out: &mut Out<'_, W>, header: &Header, damaged: &Damaged)
    ensures { Puts (damaged_line Form.Json header.now damaged.now) out.old out.new }
{
    out.put(b"{");
    put_json_cpu(out, header.stream, header.cpu);
    out.put_numbered(b",\"damaged\":", damaged.slot as u64);
    out.put_numbered(b",\"byte\":", damaged.at as u64);
    out.put(b",\"fault\":\"");
    out.put(cause_name(damaged.cause));
    out.put(b"\"}\n");
}

/// Puts the line of a damaged slot.
fn put_slot<W: Sink>(out: &mut Out<'_, W>, form: Form, header: &Header, damaged: &Damaged)
    ensures { Puts (damaged_line form header.now damaged.now) out.old out.new }
{
    match form {
        Form::Text => put_text_damaged(out, header, damaged),
        Form::Json => put_json_damaged(out, header, damaged),
    }
}

/// Puts the lines of these damaged slots of a region.
fn put_slots<W: Sink>(out: &mut Out<'_, W>, form: Form, header: &Header, slots: &[Damaged])
    ensures { Puts (flat_map (damaged_line form header.now) slots.now) out.old out.new }
{
    for damaged in slots {
        put_slot(out, form, header, damaged);
    }
}

/// Puts the lines of the damaged slots of all regions.
pub(crate) fn put_damaged<W: Sink>(out: &mut Out<'_, W>, form: Form, regions: &[Region])
    ensures { Puts (damaged_lines form regions.now) out.old out.new }
{
    for region in regions {
        put_slots(out, form, &region.header, &region.damaged);
    }
}

/// What is wrong with an input that isn't a region.
fn region_fault_name(fault: RegionFault) -> &'static [u8]
    ensures { result.now ≡ region_fault_name fault }
{
    match fault {
        RegionFault::TooShort => b"TooShort",
        RegionFault::NotARegion => b"NotARegion",
        RegionFault::BadVersion => b"BadVersion",
        RegionFault::BadPages => b"BadPages",
        RegionFault::BadSize => b"BadSize",
        RegionFault::BadCpu => b"BadCpu",
        RegionFault::BadEnd => b"BadEnd",
        RegionFault::NoMemory => b"NoMemory",
    }
}

/// Puts where something is, if it is somewhere.
fn put_place<W: Sink>(out: &mut Out<'_, W>, place: Option<usize>)
    ensures { Puts (place_text place) out.old out.new }
{
    if let Some(at) = place {
        out.put_numbered(b" at ", at as u64);
    }
}

/// Puts the line of an input that isn't a region.
pub(crate) fn put_region_fault<W: Sink>(out: &mut Out<'_, W>, fault: RegionFault)
    ensures { Puts (region_line fault) out.old out.new }
{
    out.put(b"region: ");
    out.put(region_fault_name(fault));
    put_place(out, fault.at());
    out.put(b"\n");
}
