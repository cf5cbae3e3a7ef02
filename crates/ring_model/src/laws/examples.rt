//! Worked examples of a ring, and steps that are wrong.
ghost use Rattle.ring_model.specs.Examples.{FirstRecord, HaltedHeadMove, HelpersAtTheHead, InnerReservesFirst};
ghost use Rattle.ring_model.specs.Examples.{LateSwap, NestedWriter, WishAnswered, WishWaitsForTheOutermost};
ghost use Rattle.ring_model.specs.WrongSteps.{ClosesWithoutAWish, HelperClearsTheUpdate, InnerEndPublishes};
ghost use Rattle.ring_model.specs.WrongSteps.{LosesWhileAPositionIsFree, SwapIgnoresTheFill, TakesTheTail, TwoHeads};
ghost use Rattle.ring_model.specs.WrongSteps.{WishClosesAnEmptyPage};

/// The eight worked examples are runs of steps from the new ring, with their answers.
pub fn examples_are_runs()
    ensures first_record { FirstRecord }
    ensures nested_writer { NestedWriter }
    ensures inner_reserves_first { InnerReservesFirst }
    ensures halted_head_move { HaltedHeadMove }
    ensures helpers_at_the_head { HelpersAtTheHead }
    ensures late_swap { LateSwap }
    ensures wish_answered { WishAnswered }
    ensures wish_waits_for_the_outermost { WishWaitsForTheOutermost }
{}

/// Six wrong steps lead to states that aren't rings, so none of them is a step.
pub fn wrong_steps_are_refused()
    ensures loses_while_a_position_is_free { LosesWhileAPositionIsFree }
    ensures takes_the_tail { TakesTheTail }
    ensures helper_clears_the_update { HelperClearsTheUpdate }
    ensures two_heads { TwoHeads }
    ensures swap_ignores_the_fill { SwapIgnoresTheFill }
    ensures inner_end_publishes { InnerEndPublishes }
{}

/// A frame that begins a page for the reader without a wish, or after a page without a record, makes a history that
/// isn't packed, so neither is a step.
pub fn wrong_closes_are_refused()
    ensures closes_without_a_wish { ClosesWithoutAWish }
    ensures wish_closes_an_empty_page { WishClosesAnEmptyPage }
{}
