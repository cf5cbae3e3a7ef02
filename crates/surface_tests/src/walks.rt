//! Walks over sources of lines, of which one may be unable to go on.
use std::alloc::Global;
use std::test::Fail;
use time_merge::{Line, LineSource, Stopped, TakesLines, walk_sources};
use trace_model::{CpuId, Moment, NoMemory, RecordNo};

/// Lines of a CPU, one at each moment. It can't go on after its first line if none is left.
#[derive(Drop)]
struct Ticks {
    first: Option<Line<'static>>,
    left: u64,
}

/// So many lines of a CPU, from this moment on.
fn source_of(cpu: u32, moment: u64, left: u64) -> Ticks {
    let line = Line {
        moment: Moment(moment),
        cpu: CpuId(cpu),
        number: RecordNo(moment),
        bytes: &[],
    };
    Ticks {
        first: Some(line),
        left,
    }
}

impl LineSource for Ticks {
    ghost use Rattle.std.specs.Option.{option_map};
    ghost use Rattle.time_merge.specs.Lines.{line_seen};

    ghost head = { λ s. option_map line_seen s.first };

    ghost passes = { λ _ _ _. Unit {0} };

    ghost stopped = { λ _. Unit {0} };

    ghost turns = { λ s. s.left };

    fn first(&self) -> Option<Line<'_>> {
        self.first
    }

    fn advance(&mut self) -> Result<(), Stopped> {
        let Some(line) = self.first else {
            return Ok(());
        };
        self.first = None;
        if self.left == 0 {
            return Err(Stopped);
        }
        self.left -= 1;
        if self.left > 0 {
            self.first = Some(Line {
                moment: Moment(line.moment.0.wrapping_add(1)),
                ..line
            });
        }
        Ok(())
    }
}

/// It makes a decimal number of the moments, which are digits.
#[derive(Drop)]
struct Digits;

impl TakesLines<u64> for Digits {
    ghost can_take = { λ _. Unit {0} };

    ghost takes = { λ _ _ _. Unit {0} };

    fn take_line(&mut self, number: &mut u64, line: &Line<'_>) {
        *number = number.wrapping_mul(10).wrapping_add(line.moment.0);
    }
}

/// The moments that are taken of two sources, and whether these have no line left. The second source has so many lines.
fn walked(alloc: Global, left: u64) -> Result<(u64, bool), NoMemory> {
    let mut sources = Vec::new(alloc);
    sources.push(source_of(0, 1, 3))?;
    sources.push(source_of(1, 2, left))?;
    let mut number = 0;
    let walked = walk_sources(alloc, sources, &mut Digits, &mut number)?;
    Ok((number, walked.is_whole))
}

#[test]
fn a_walk_takes_all_lines_by_moment(rt: HostRuntime) -> Result<(), Fail> {
    assert!(rt; walked(rt.alloc(), 1)? == (1223, true));
    Ok(())
}

#[test]
fn a_walk_ends_with_a_source_that_stops(rt: HostRuntime) -> Result<(), Fail> {
    assert!(rt; walked(rt.alloc(), 0)? == (122, false));
    Ok(())
}
