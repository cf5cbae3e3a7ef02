//! Fleets: what is known of many streams, and its listing by time.
pub use fleet_collector::{Fleet, FleetLine, FleetMergeFault, PieceRefusal, Streams};
