//! The text of what is given: what was lost before a record, and its line.
ghost use Rattle.std.specs.Prelude.{◌≡◌, ◌∷◌, [], ◌++◌, if◌then◌else◌, count_by, List};
ghost use Rattle.trace_model.specs.Listing.{Line as ModelLine};
ghost use Rattle.capture_text.specs.declared.form.Form.{Form};
ghost use Rattle.capture_text.specs.Printed.{IsSound, bounds_of};
ghost use Rattle.capture_text.specs.Printing.{Detail};
ghost use Rattle.capture_text.specs.Selection.{Selected, selection_seen};
ghost use Rattle.capture_text.specs.Listed.{listed_late};
ghost use Rattle.line_follower.specs.Order.{line_of};
ghost use Rattle.time_merge.specs.Lines.{line_seen};
ghost use Rattle.text_values.specs.Putting.{Puts};
ghost use Rattle.live_listing.specs.Gaps.{gap_seen};
ghost use Rattle.live_listing.specs.Printing.{gap_text, line_text, said_texts, listed_of, listed_all, is_late};
ghost use Rattle.live_listing.specs.Printing.{HasPrinted};

use crate::gap::Gap;
use crate::pages::Content;
use capture::Part;
use capture_text::Printer;
use command_io::Sink;
use line_follower::{Line, Said};
use text_values::Out;
use time_merge::{Line as Listed, TakesLines};
use trace_model::{CpuId, RecordNo};

/// Prints what was lost of a CPU, whose pages have `size` bytes each: the run of missing numbers, then the losses of
/// unknown number, then the damaged pages.
pub fn print_gap<W: Sink>(
    printer: &Printer<'_>,
    out: &mut Out<'_, W>,
    size: usize,
    cpu: CpuId,
    gap: &Gap,
)
    ensures { Puts (gap_text printer.now.form (bounds_of printer.now cpu.0) size cpu.0 (gap_seen gap.now))
        out.old out.new }
{
    if gap.from < gap.until {
        printer.put_run(out, cpu, gap.from, RecordNo(gap.until.0 - 1));
    }
    printer.put_unknown_at(out, cpu, &gap.unknown);
    let all = Part {
        size: size as u64,
        length: u64::MAX,
    };
    printer.put_damaged_pages(out, cpu, &gap.damaged, &[all]);
}

/// Prints that a line is late, if it is.
fn print_late<W: Sink>(
    printer: &Printer<'_>,
    out: &mut Out<'_, W>,
    line: &Listed<'_>,
    is_late: bool,
)
    ensures { Puts (if is_late then listed_late printer.now.form (selection_seen printer.now.selection)
        (line_seen line.now) else []) out.old out.new }
{
    if is_late {
        printer.put_late(out, line);
    }
}

/// Prints a line, with what was lost before it, and whether it is late.
fn print_line<W: Sink>(
    printer: &mut Printer<'_>,
    out: &mut Out<'_, W>,
    size: usize,
    line: &Line<Content>,
    is_late: bool,
)
    requires { IsSound printer.old.naming }
    ensures sound { IsSound printer.new.naming }
    ensures printed { (form : Form) (detail : Detail) (selected : Selected) (before : List ModelLine)
        → HasPrinted form detail selected before printer.old
        → HasPrinted form detail selected (before ++ listed_of line.now ∷ []) printer.new
        × Puts (line_text form detail selected size before line.now is_late) out.old out.new }
{
    let cpu = line.place.cpu;
    print_gap(printer, out, size, cpu, &line.content.gap);
    let listed = Listed {
        moment: line.place.moment,
        cpu,
        number: line.place.number,
        bytes: &line.content.bytes,
    };
    print_late(printer, out, &listed, is_late);
    printer.take_line(out, &listed);
}

/// Prints a line that is given, and answers whether it is late.
fn print_said<W: Sink>(
    printer: &mut Printer<'_>,
    out: &mut Out<'_, W>,
    size: usize,
    said: &Said<Content>,
) -> bool
    requires { IsSound printer.old.naming }
    ensures sound { IsSound printer.new.naming }
    ensures late { result ≡ is_late said.now }
    ensures printed { (form : Form) (detail : Detail) (selected : Selected) (before : List ModelLine)
        → HasPrinted form detail selected before printer.old
        → HasPrinted form detail selected (before ++ listed_of (line_of said.now) ∷ []) printer.new
        × Puts (line_text form detail selected size before (line_of said.now) (is_late said.now)) out.old out.new }
{
    match said {
        Said::InOrder(line) => {
            print_line(printer, out, size, line, false);
            false
        }
        Said::Late(line) => {
            print_line(printer, out, size, line, true);
            true
        }
    }
}

/// Prints lines that are given, one after the other, and gives how many of them are late.
pub fn print_lines<W: Sink>(
    printer: &mut Printer<'_>,
    out: &mut Out<'_, W>,
    size: usize,
    given: &[Said<Content>],
) -> u64
    requires { IsSound printer.old.naming }
    ensures sound { IsSound printer.new.naming }
    ensures late { result ≡ count_by is_late given.now }
    ensures printed { (form : Form) (detail : Detail) (selected : Selected) (before : List ModelLine)
        → HasPrinted form detail selected before printer.old
        → HasPrinted form detail selected (before ++ listed_all given.now) printer.new
        × Puts (said_texts form detail selected size before given.now) out.old out.new }
{
    let mut late = 0;
    for said in given {
        late += u64::from(print_said(printer, out, size, said));
    }
    late
}
