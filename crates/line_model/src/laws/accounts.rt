//! What a script's lines make of each CPU, with neither links nor words of a ring.
ghost use Rattle.std.specs.Prelude.{◌≡◌, ◌<◌, ℕ, suc, List, [], ◌∷◌, ◌++◌, length, Option, Some, None};
ghost use Rattle.std.specs.List.{slice_get};
ghost use Rattle.trace_model.specs.Window.{RingEvent, acts, WindowRun};
ghost use Rattle.trace_model.specs.History.{leave};
ghost use Rattle.ring_model.specs.RunsAsEvents.{AreEventsOfRun};
ghost use Rattle.text_model.specs.Script.{Script};
ghost use Rattle.text_model.specs.ScriptLimits.{IsWithinLimits};
ghost use Rattle.world_model.specs.Lanes.{Lane};
ghost use Rattle.world_model.specs.World.{World, WorldOf};
ghost use Rattle.line_model.specs.Due.{window_at};
ghost use Rattle.line_model.specs.Accounts.{LineFrame, CpuState, Does, IsAccount};
ghost use Rattle.line_model.specs.WholeScripts.{OneAccount, OneText};

/// The world of a script within its limits has an account of each of its CPUs, whose events after all lines are those
/// of the CPU's ring in that world.
pub fn worlds_have_accounts()
    ensures { (script : Script) (w : World) (cpu : ℕ) → IsWithinLimits script → WorldOf script w → cpu < script.cpus →
        (states : ℕ → CpuState) × IsAccount script cpu states
        × (lane : Lane) × (slice_get w.lanes cpu ≡ Some lane)
        × AreEventsOfRun script.pages script.start lane.core (states (length script.commands)).events }
{}

/// A script within its limits, without `s` and `r` lines, has at most one account of each CPU.
pub fn whole_scripts_have_one_account()
    ensures one { OneAccount }
{}

/// A script within its limits, without `s` and `r` lines, has one output at most without the log: what its accounts
/// print is one text.
pub fn whole_scripts_have_one_output()
    ensures one { OneText }
{}

/// The events of an account are a run of the window, which leads to the window that they are counted to.
pub fn accounts_are_window_runs()
    ensures { (script : Script) (cpu : ℕ) (states : ℕ → CpuState) → IsAccount script cpu states →
        (k : ℕ) → k < suc (length script.commands) →
        WindowRun script.pages script.start (states k).events (window_at script.start (states k).events) }
{}

/// What a line has a nested frame do until that frame has left ends with its leave: no frame below it does anything.
pub fn nested_frames_end_by_leaving()
    ensures { (frame next after : LineFrame) (below : List LineFrame) (own : List RingEvent) (payload : List ℕ) →
        frame.payload ≡ Some payload → Does (next ∷ below) frame own after → after.payload ≡ None →
        (front : List RingEvent) × (written : Option (List ℕ)) × (own ≡ front ++ acts (leave written) ∷ []) }
{}
