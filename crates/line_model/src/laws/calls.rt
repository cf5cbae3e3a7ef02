//! Laws over what the calls of a writer make.
ghost use Rattle.std.specs.Prelude.{◌≡◌, ◌⊎◌, ℕ, Bool, List, ◌∷◌, length};
ghost use Rattle.trace_model.specs.Frames.{Frame, waiting, left};
ghost use Rattle.trace_model.specs.Ring.{Core};
ghost use Rattle.trace_model.specs.Steps.{Answer, Step, steps};
ghost use Rattle.ring_model.specs.RingKept.{IsRingKept};
ghost use Rattle.line_model.specs.Lines.{OpenFrame};
ghost use Rattle.line_model.specs.LineParts.{CallsFinish, ClosesMake, LineCallsMake, LinesCallsGoOn, LinesCallsMake};
ghost use Rattle.line_model.specs.LineParts.{PartsGoOn, PushesMake, RestCallsGoOn, RestCallsMake, StartIsBetweenLines};
ghost use Rattle.line_model.specs.LineParts.{TopCallsGoOn, WriterMakesLines, WritesMake};
ghost use Rattle.line_model.specs.CallEvents.{AreOpenFrames, CallsMakeEvents, CallMakes};

/// One step of the top frame that waits or has left, whatever frames are below it, makes one of eight things
/// (`CallMakes`).
pub fn steps_make()
    ensures make { (n size start : ℕ) (c : Core) (frame : Frame) (below : List Frame) (answer : Answer) (after : Core) →
        IsRingKept n size start c → c.frames ≡ frame ∷ below → (frame.state ≡ waiting) ⊎ (frame.state ≡ left) →
        Step n size c steps answer after → CallMakes n size c frame below after }
{}

/// The state of the lines has as many frames as the writer that it agrees with.
pub fn states_count_frames()
    ensures count { (frames : List Frame) (payloads : List (List ℕ)) (xs : List OpenFrame) (finishing : Bool) →
        AreOpenFrames frames payloads xs finishing → length payloads ≡ length frames }
{}

/// Each call for the top frame makes events of it, from a state that agrees with the writer to one that does again.
pub fn calls_make_events()
    ensures make { CallsMakeEvents }
{}

/// Calls for a frame until it is popped make the part of an `f` line.
pub fn calls_finish()
    ensures finish { CallsFinish }
{}

/// A push makes the part of a `b` line, or of a refused line; with calls until its frame is popped it makes that of a
/// `w` or `c` line.
pub fn pushes_make_parts()
    ensures pushes { PushesMake }
    ensures writes { WritesMake }
    ensures closes { ClosesMake }
{}

/// Parts can be added line by line, from the start.
pub fn parts_go_on()
    ensures one_more { PartsGoOn }
    ensures start { StartIsBetweenLines }
{}

/// The calls of a line make its part, `f` and `s` included, also if there is no frame; the calls of lines make theirs,
/// and so do those that finish the frames which are left.
pub fn line_calls_make_parts()
    ensures line { LineCallsMake }
    ensures lines { LinesCallsMake }
    ensures rest { RestCallsMake }
{}

/// A writer that makes the calls of its lines on a new ring, and then finishes the frames which are left, makes a
/// history of these lines, whatever the reader does between its calls.
pub fn writers_make_lines()
    ensures whole { WriterMakesLines }
{}

/// Calls can be added one by one: for the top frame, line by line, and for the frames that are finished at the end.
pub fn calls_go_on()
    ensures top { TopCallsGoOn }
    ensures lines { LinesCallsGoOn }
    ensures rest { RestCallsGoOn }
{}
