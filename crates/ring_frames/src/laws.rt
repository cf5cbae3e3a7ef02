//! What holds of a writer's frames.
ghost use Rattle.ring_frames.specs.Laws.{SameFrames};

/// Frames are those of each state that has these frames, this history and these counts of closed and begun fills: so
/// they stay so whatever the reader does.
pub fn frames_are_of_the_writers_part()
    ensures { SameFrames }
{}
