//! What gives lines to a merge.
ghost use Rattle.std.specs.Prelude.{◌≡◌, ℕ, ◌<◌, Option, Some, None, OnErr, OnOk};
ghost use Rattle.std.specs.Option.{option_map};
ghost use Rattle.trace_model.specs.Listing.{Line as ModelLine};
ghost use Rattle.time_merge.specs.Lines.{line_seen};

use crate::lines::Line;

/// A source of lines can't go on.
#[derive(Clone, Copy, Debug, PartialEq, Eq)]
pub struct Stopped;

/// A source of lines, of which the first is at hand. The lines may lie where later ones will lie.
pub trait LineSource: Drop {
    // The line at hand, if one is left.
    ghost head: { Self → Option ModelLine };

    // Going on after a line leads from one state to another.
    ghost passes: { Self → ModelLine → Self → Type 0 };

    // It couldn't go on.
    ghost stopped: { Self → Type 0 };

    // How often it goes on at most.
    ghost turns: { Self → ℕ };

    /// The line at hand, if one is left.
    fn first(&self) -> Option<Line<'_>>
        ensures { option_map line_seen result ≡ head self.now };

    /// Goes on after the line at hand, if there is one. A source that can't go on has no line any more.
    fn advance(&mut self) -> Result<(), Stopped>
        ensures goes { OnOk result ((line : ModelLine) → head self.old ≡ Some line → passes self.old line self.new) }
        ensures ends { OnOk result ((line : ModelLine) → head self.old ≡ Some line → turns self.new < turns self.old) }
        ensures stops { OnErr result (stopped self.new) }
        ensures none { OnErr result (head self.new ≡ None) };
}
