//! Laws over the worlds of scripts.
ghost use Rattle.std.specs.Prelude.{◌≡◌, ℕ, ◌+◌, ◌<◌, ◌≤◌, ◌↔◌, List, [], ◌∷◌, ◌++◌, Contains, Some};
ghost use Rattle.std.specs.List.{slice_get};
ghost use Rattle.trace_model.specs.Window.{RingEvent};
ghost use Rattle.trace_model.specs.Ring.{Core, IsStart};
ghost use Rattle.trace_model.specs.Steps.{Exchange};
ghost use Rattle.trace_model.specs.Parcel.{Parcel};
ghost use Rattle.trace_model.specs.Collection.{Agree, IsSame, IsLeastUpperBound};
ghost use Rattle.ring_model.specs.RunsAsEvents.{AreEventsOfRun};
ghost use Rattle.text_model.specs.Script.{Script, Command, deliver};
ghost use Rattle.text_model.specs.ScriptLimits.{IsWithinLimits};
ghost use Rattle.world_model.specs.World.{World, Obeys, WorldBehind, WorldOf};
ghost use Rattle.world_model.specs.RunEvents.{AreEventsOf, AreEventsOfSteps};
ghost use Rattle.world_model.specs.GenuineWorlds.{IsGenuineWorld};

/// A script within its limits has one world at most, after any of its lines and after all of them: every answer, every
/// page taken and every line of the log is decided by it. A line that is obeyed leads from the world before it to one
/// after it.
pub fn one_world()
    ensures behind { (script : Script) (lines : List (ℕ × Command)) (one other : World) → IsWithinLimits script →
        WorldBehind script lines one → WorldBehind script lines other → one ≡ other }
    ensures whole { (script : Script) (one other : World) → IsWithinLimits script →
        WorldOf script one → WorldOf script other → one ≡ other }
    ensures next { (script : Script) (lines : List (ℕ × Command)) (line : ℕ) (command : Command) (w after : World) →
        WorldBehind script lines w → Obeys script line command w after →
        WorldBehind script (lines ++ (line, command) ∷ []) after }
{}

/// The events of a run of a new ring, step by step, determine the history, the window and the takes of the state that
/// it leads to. In a step in which the head passes a fill that isn't taken, that fill is closed, and a whole round of
/// fills is begun from it on: none is lost early.
pub fn runs_have_events()
    ensures reported { (n size start : ℕ) (from c : Core) (exchanges : List Exchange) (events : List RingEvent) →
        IsStart n start from → AreEventsOfSteps n size from exchanges events c → AreEventsOfRun n start c events }
    ensures full { (n : ℕ) (before after : Core) (events : List RingEvent) → AreEventsOf n before events after →
        after.reader.taken ≡ before.reader.taken → before.head < after.head →
        (before.head < after.done) × (before.head + n ≤ after.opened) }
{}

/// In the world of a script within its limits, after any of its lines, in whatever order writers interrupt each other
/// and readers take pages, the parcels of each CPU part its committed records: each is a whole fill under its own
/// number, with exactly the numbers of records missing that were overwritten unread since the page taken before it, or
/// the start. They agree, and only what was taken is delivered. Each collector has exactly the records of the pages
/// delivered to it, and misses exactly the numbers that were overwritten unread before those.
pub fn worlds_are_genuine()
    ensures behind { (script : Script) (lines : List (ℕ × Command)) (w : World) → IsWithinLimits script →
        WorldBehind script lines w → IsGenuineWorld script w }
    ensures whole { (script : Script) (w : World) → IsWithinLimits script → WorldOf script w → IsGenuineWorld script w }
{}

/// Pages of one world never clash, whichever of them are collected. So any two of its collectors have a least
/// collection above both, which is what was delivered to the one or to the other; and two to which the same pages were
/// delivered have and miss the same.
pub fn collectors_join()
    ensures agree { (script : Script) (w : World) (parcels : List Parcel) → IsGenuineWorld script w →
        ((parcel : Parcel) → Contains parcels parcel → Contains w.taken parcel) → Agree parcels }
    ensures join { (script : Script) (w : World) (one other : ℕ) (parcels others : List Parcel) →
        IsGenuineWorld script w → slice_get w.delivered one ≡ Some parcels → slice_get w.delivered other ≡ Some others →
        IsLeastUpperBound parcels others (parcels ++ others) }
    ensures same { (script : Script) (w : World) (one other : ℕ) (parcels others : List Parcel) →
        IsGenuineWorld script w → slice_get w.delivered one ≡ Some parcels → slice_get w.delivered other ≡ Some others →
        ((parcel : Parcel) → (Contains parcels parcel ↔ Contains others parcel)) → IsSame parcels others }
{}

/// What was delivered to a collector, a line of the script delivers to it.
pub fn deliveries_are_of_lines()
    ensures { (script : Script) (w : World) (collector : ℕ) (parcels : List Parcel) (parcel : Parcel) →
        WorldOf script w → slice_get w.delivered collector ≡ Some parcels → Contains parcels parcel →
        (line : ℕ) × Contains script.commands (line, deliver collector parcel.cpu parcel.fill) }
{}
