//! Laws of the reader's wish for the tail page.
ghost use Rattle.ring_model.specs.WishLaws.{EndsOnTheWishedPage, GoneHasLooked, WishBehindEmptyLosesNone};
ghost use Rattle.ring_model.specs.WishLaws.{WishedTailsAreClosed, WishesAreAnswered, WishesAreHeld};

/// A wish for the first fill that isn't closed is answered by the next outermost end that finds a record in the tail,
/// unless the tail is the last fill. The reader wishes for the fill after those that it has seen closed; the last frame
/// leaves the stack by its look for that wish alone; and the end's own record is on that page, if it has no fill to
/// close before.
pub fn wishes_are_answered()
    ensures held { WishesAreHeld }
    ensures gone { GoneHasLooked }
    ensures answered { WishesAreAnswered }
    ensures closed { WishedTailsAreClosed }
    ensures own { EndsOnTheWishedPage }
{}

/// A wish right after an answer that nothing closed is unread loses no fill.
pub fn wishes_lose_nothing()
    ensures loses { WishBehindEmptyLosesNone }
{}
