//! Laws over what a line of a script has with a ring.
ghost use Rattle.std.specs.Prelude.{◌≡◌, ℕ, List, length};
ghost use Rattle.trace_model.specs.Steps.{Exchange, Run};
ghost use Rattle.text_model.specs.Script.{Command};
ghost use Rattle.ring_model.specs.RingLaws.{MayAsk};
ghost use Rattle.world_model.specs.Lanes.{Lane, IsNewLane, HasPayloads, event_on_top, LineRun};
ghost use Rattle.world_model.specs.LineEnds.{FrameRunsAreShort, ReaderRunsAreShort};

/// What a line does with its ring is one list of exchanges, and a run of the ring's steps.
pub fn lines_are_runs()
    ensures run { (n size : ℕ) (command : Command) (before after : Lane) (exchanges : List Exchange) →
        LineRun n size command before exchanges after → Run n size before.core exchanges after.core }
    ensures one { (n size : ℕ) (command : Command) (before after other : Lane) (exchanges others : List Exchange) →
        LineRun n size command before exchanges after → LineRun n size command before others other →
        (exchanges ≡ others) × (after ≡ other) }
{}

/// After any lines there is a payload for each frame on the stack, as long as the frame was pushed for; so the frame on
/// top may always be asked for its next step, the end of its record among them.
pub fn payloads_are_of_frames()
    ensures new { (n start : ℕ) (lane : Lane) → IsNewLane n start lane → HasPayloads lane }
    ensures kept { (n size : ℕ) (command : Command) (before after : Lane) (exchanges : List Exchange) →
        HasPayloads before → LineRun n size command before exchanges after → HasPayloads after }
    ensures as_many { (lane : Lane) → HasPayloads lane → length lane.payloads ≡ length lane.core.frames }
    ensures may_ask { (lane : Lane) → HasPayloads lane →
        MayAsk lane.core (event_on_top lane.core.frames lane.payloads) }
{}

/// What a line asks of a frame until it is gone, and of the reader until it answers, has an end.
pub fn lines_come_to_an_end()
    ensures frames { FrameRunsAreShort }
    ensures takes { ReaderRunsAreShort }
{}
