//! What a run leaves of a CPU.
use page_numbers::Parcel;
use ring_shared::Settled;

/// What a run leaves of a CPU's ring: the page that wasn't taken, if there is one, and the parcels that were, in order.
#[derive(Debug, Drop)]
pub struct Ledger {
    /// The ring, after both of its ends were joined.
    pub settled: Settled,
    /// The parcels that its reader took, in the order in which it took them.
    pub taken: Vec<Parcel>,
}
