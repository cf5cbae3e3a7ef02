//! Laws over what lines make of a history.
ghost use Rattle.std.specs.Prelude.{◌≡◌, ◌<◌, ℕ, List, length};
ghost use Rattle.trace_model.specs.History.{HistoryEvent};
ghost use Rattle.trace_model.specs.Window.{Window, RingEvent, history_events_of, WindowRun};
ghost use Rattle.text_model.specs.Script.{Command};
ghost use Rattle.line_model.specs.Lines.{IsMadeByLines};
ghost use Rattle.line_model.specs.LineExamples.{OneWrite, RefusedBegin, BeginAndSteps, NestedFrames, DroppedWrite};
ghost use Rattle.line_model.specs.LineExamples.{RecordsOfThree};

/// By example, lines make the history of a written record, of a push that is refused, of a frame that makes single
/// steps and of nested frames, and no history that lacks a line's record; and `w` lines write these records.
pub fn lines_make_histories()
    ensures one_write { OneWrite }
    ensures refused { (payload : List ℕ) → 32 < length payload → RefusedBegin payload }
    ensures steps { BeginAndSteps }
    ensures nested { NestedFrames }
    ensures dropped { DroppedWrite → ⊥ }
    ensures three { (payload : List ℕ) → 32 < length payload → RecordsOfThree payload }
{}

/// What lines make of a history is, with the fills that are closed, taken and lost meanwhile, a run of the window: so
/// the laws of windows hold of it.
pub fn lines_are_window_runs()
    ensures run { (n size start : ℕ) (lines : List Command) (history : List HistoryEvent) →
        IsMadeByLines n size start lines history →
        (events : List RingEvent) × (w : Window) × WindowRun n start events w × (history_events_of events ≡ history) }
{}
