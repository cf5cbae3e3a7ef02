//! A writer's end of a ring.
use ring_shared::Writer;
use std::marker::Model;

/// The writer's end of a running ring, in a state that calls of it reach.
#[derive(Drop)]
pub struct WriterEnd {
    /// The end itself.
    pub writer: Writer,
}

impl Model for WriterEnd {
    ghost use Rattle.ring_shared.specs.Value.{WriterValue};
    ghost use Rattle.ring_shared.specs.Calls.{IsWriter};

    ghost Value = { WriterValue };

    ghost view = { λ end. end.writer };

    ghost invariant = { λ end. IsWriter end.writer };
}
