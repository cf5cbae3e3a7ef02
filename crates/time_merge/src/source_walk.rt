//! A walk over lines of sources, merged by their moments.
ghost use Rattle.std.specs.Prelude.{◌≡◌, ◌<◌, false, true, IfOk, OnErr, Ok};
ghost use Rattle.time_merge.specs.Heads.{HasTaken, HaveEnded};
ghost use Rattle.time_merge.specs.SourceWalks.{WalksAll, WalksPart};

use crate::line_source::{LineSource, Stopped};
use crate::merge::Merged;
use crate::walk::TakesLines;
use std::alloc::Global;
use trace_model::NoMemory;

/// What is left of sources after a walk.
#[derive(Debug, Drop)]
pub struct Walked<S> {
    /// The sources, in their order.
    pub sources: Vec<S>,
    /// Whether each has given all its lines. If not, one of them couldn't go on.
    pub is_whole: bool,
}

/// Has the line that goes first taken, and goes on after it. False if there is none.
#[inline(always)]
fn take_first<S: LineSource, W, T: TakesLines<W>>(
    merged: &mut Merged<S>,
    taker: &mut T,
    writer: &mut W,
) -> Result<bool, Stopped>
    requires { T.can_take (taker.old, writer.old) }
    ensures can { T.can_take (taker.new, writer.new) }
    ensures ended { result ≡ Ok false → (HaveEnded S.head merged.old) × (merged.new ≡ merged.old)
        × (taker.new ≡ taker.old) × (writer.new ≡ writer.old) }
    ensures taken { result ≡ Ok true → HasTaken S.head
        (λ s line t. S.passes s line t × (S.turns t < S.turns s)) T.takes
        merged.old (taker.old, writer.old) merged.new (taker.new, writer.new) }
    ensures stopped { OnErr result (HasTaken S.head (λ s line t. S.stopped t × (S.head t ≡ None)) T.takes
        merged.old (taker.old, writer.old) merged.new (taker.new, writer.new)) }
{
    let Some(source) = merged.at_turn() else {
        return Ok(false);
    };
    if let Some(line) = source.first() {
        taker.take_line(writer, &line);
    }
    merged.advance()?;
    Ok(true)
}

/// Has the lines of the sources taken, by moment, each together with the writer. Lines of one moment are in the order
/// of the sources. The lines of each source are by rising moment.
///
/// It ends when no source has a line, or as soon as one can't go on after a line that was taken. If memory is refused,
/// no line is taken.
pub fn walk_sources<S: LineSource, W, T: TakesLines<W>>(
    alloc: Global,
    sources: Vec<S>,
    taker: &mut T,
    writer: &mut W,
) -> Result<Walked<S>, NoMemory>
    requires { T.can_take (taker.old, writer.old) }
    ensures can { T.can_take (taker.new, writer.new) }
    ensures whole { IfOk result (λ walked. walked.is_whole ≡ true
        → WalksAll S.head S.passes T.takes sources.items (taker.old, writer.old) walked.sources.items
        (taker.new, writer.new)) }
    ensures part { IfOk result (λ walked. walked.is_whole ≡ false
        → WalksPart S.head S.passes S.stopped T.takes sources.items (taker.old, writer.old) walked.sources.items
        (taker.new, writer.new)) }
    ensures refused { OnErr result ((taker.new ≡ taker.old) × (writer.new ≡ writer.old)) }
{
    let mut merged = Merged::of(alloc, sources)?;
    loop {
        match take_first(&mut merged, taker, writer) {
            Ok(true) => {}
            Ok(false) => {
                return Ok(Walked {
                    sources: merged.into_sources(),
                    is_whole: true,
                });
            }
            Err(Stopped) => {
                return Ok(Walked {
                    sources: merged.into_sources(),
                    is_whole: false,
                });
            }
        }
    }
}
