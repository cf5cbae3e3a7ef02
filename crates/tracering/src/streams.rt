//! Streams of parcels, as hosts store and send them: their pieces as bytes, and what is known of one stream.
pub use parcel_streams::{
    MAX_PIECE, MIN_PIECE, Mark, Piece, PieceFault, StreamFault, StreamId, is_stream, pack_mark,
    pack_parcel, read_piece, read_stream, wanted,
};
pub use stream_collector::{
    AddFault, Added, MarkFault, Marked, MarkedCpus, MergeFault, StreamCollector, StreamRuns,
};
