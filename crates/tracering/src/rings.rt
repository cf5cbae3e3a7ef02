//! Running rings: the two ends of one, and what their calls answer.
pub use nested_writer::{Ended, Payload, WriteFault};
pub use ring_shared::{
    Answer, Reader, Receipt, SettleFault, Settled, Take, Writer, ring, ring_at, settle, stop,
};
