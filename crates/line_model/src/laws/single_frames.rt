//! Laws over a frame that is alone on the stack.
ghost use Rattle.line_model.specs.SingleFrames.{RefusedFramesNeedPages, SingleFramesAreServed};

/// A frame that is pushed on an empty stack, and above which none is pushed, is never refused for want of a page, and
/// for want of a number only if records have taken the numbers of fills. A frame is refused for either only if it needs
/// a page.
pub fn single_frames_are_served()
    ensures needs { RefusedFramesNeedPages }
    ensures served { SingleFramesAreServed }
{}
