//! What a seat at a ring's table knows.
use std::marker::Model;

/// What an end of a ring knows of its own part. No value of it is made: only contracts and proofs use it.
pub struct View;

impl Model for View {
    ghost use Rattle.ring_steps.specs.Views.{SeatView, spent};

    ghost Value = { SeatView };

    ghost view = { λ _. spent };
}
