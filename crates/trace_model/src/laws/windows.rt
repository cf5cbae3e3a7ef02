//! Laws over the counts of a ring.
ghost use Rattle.std.specs.Prelude.{ℕ, ◌≤◌, List};
ghost use Rattle.trace_model.specs.History.{HistoryEvent};
ghost use Rattle.trace_model.specs.Window.{Window, RingEvent, window_after, MayMove, WindowRun, IsWindow};

/// Over each event, and so over every run from the start, the counts of a ring's window keep their order, and no more
/// fills are begun from the head on than the ring has positions.
pub fn windows_keep_order()
    ensures event { (n : ℕ) (history : List HistoryEvent) (window : Window) (event : RingEvent) →
        IsWindow n window → MayMove n history window event → IsWindow n (window_after window event) }
    ensures run { (n start : ℕ) (events : List RingEvent) (window : Window) → 1 ≤ n →
        WindowRun n start events window → IsWindow n window }
{}
