//! What is printed for a text: a world or a fault, one output, and a world that is genuine.
ghost use Rattle.std.specs.Prelude.{◌≡◌, ◌↔◌, ◌⊎◌, ℕ, Bool, List};
ghost use Rattle.world_model.specs.GenuineWorlds.{IsGenuineWorld};
ghost use Rattle.replay_command.specs.Commands.{PrintsFault, PrintsReplay, ReplayGives};

/// What `replay` gives for a text is the printing of its script's world, with the status 0, or the line of its first
/// fault, with 1; there is no third case.
pub fn outputs_are_worlds_or_faults()
    ensures { (asked : Bool) (text bytes : List ℕ) (status : ℕ) →
        ReplayGives asked text bytes status ↔ (PrintsReplay asked text bytes status ⊎ PrintsFault text bytes status) }
{}

/// What `replay` may print for a text is one output: the same bytes, with the same exit status.
pub fn one_output()
    ensures { (asked : Bool) (text bytes others : List ℕ) (status other : ℕ) →
        ReplayGives asked text bytes status → ReplayGives asked text others other →
        (bytes ≡ others) × (status ≡ other) }
{}

/// The world that is printed is genuine: each page a whole fill, under its own numbers, and each collector exact.
pub fn printed_worlds_are_genuine()
    ensures { (asked : Bool) (text bytes : List ℕ) (status : ℕ) (replay : PrintsReplay asked text bytes status) →
        IsGenuineWorld replay.script replay.printing.world }
{}
