//! Laws of a ring's answers: when a frame is refused, and what the reader's answers say.
ghost use Rattle.ring_model.specs.AnswerLaws.{CrowdedIsRight, EmptyIsRight, MovingIsRight, RefusalsAreDue};
ghost use Rattle.ring_model.specs.AnswerLaws.{PageTakenIsRight, WornIsRight};

/// A frame is refused as crowded only if all pages have fills that aren't closed, and as worn only if not all have, and
/// the tail is the last fill that may be begun; in either case a frame that needs a page is refused so. That a refused
/// frame needs a page is said by `single_frames_are_served` of `line_model`, clause `needs`.
pub fn refusals_are_right()
    ensures crowded { CrowdedIsRight }
    ensures worn { WornIsRight }
    ensures due { RefusalsAreDue }
{}

/// The reader is answered `empty` only if nothing closed is unread, and `moving` only by a move of the head whose
/// UPDATE is set; it takes only the head, closed, and holds it as taken.
pub fn reader_answers_are_right()
    ensures none { EmptyIsRight }
    ensures moves { MovingIsRight }
    ensures takes { PageTakenIsRight }
{}
