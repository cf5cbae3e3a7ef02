//! Adding to a stream.
use crate::fleet::Fleet;
use page_numbers::Parcel;
use parcel_streams::StreamId;
use stream_collector::{AddFault, Added, StreamCollector};

impl Fleet {
    ghost use Rattle.std.specs.Prelude.{◌≡◌, ◌↔◌, [], ◌∷◌, ◌++◌, Some, Ok, IfOk, IfErr, OnErr};
    ghost use Rattle.trace_model.specs.Collection.{Agree, IsBelow};
    ghost use Rattle.page_numbers.specs.Parcels.{as_parcel};
    ghost use Rattle.collector.specs.declared.fault.AddFault.TheVariants.{NoMemory};
    ghost use Rattle.stream_collector.specs.Faults.{IsForgotten, IsWithinEnd, IsNotAdded};
    ghost use Rattle.stream_collector.specs.declared.added.Added.TheVariants.{New, Known, Forgotten};
    ghost use Rattle.stream_collector.specs.declared.fault.AddFault.TheVariants.{Refused};
    ghost use Rattle.fleet_collector.specs.Fleet.{known_of, stream_at, KeepsOthers};

    /// Adds a parcel to a stream, as `StreamCollector::add` does. A stream that isn't there is made, if the parcel has
    /// or misses something. On a fault nothing has changed.
    pub fn add(&mut self, stream: StreamId, parcel: Parcel) -> Result<Added, AddFault>
        ensures new { result ≡ Ok New → known_of self.new stream.0 ≡ Some record (stream_at self.old stream.0)
            { parcels = (stream_at self.old stream.0).parcels ++ as_parcel parcel ∷ [] } }
        ensures others { KeepsOthers self.old self.new stream.0 }
        ensures known { result ≡ Ok Known → self.new ≡ self.old }
        ensures known_exactly { result ≡ Ok Known
            → IsBelow (as_parcel parcel ∷ []) (stream_at self.old stream.0).parcels }
        ensures new_exactly { result ≡ Ok New
            → IsBelow (as_parcel parcel ∷ []) (stream_at self.old stream.0).parcels → ⊥ }
        ensures forgotten { (result ≡ Ok Forgotten) ↔ IsForgotten (stream_at self.old stream.0) (as_parcel parcel) }
        ensures forgotten_nothing { result ≡ Ok Forgotten → self.new ≡ self.old }
        ensures agree { result ≡ Ok New → Agree (stream_at self.new stream.0).parcels }
        ensures within { IfOk result (λ added. (added ≡ Forgotten → ⊥)
            → IsWithinEnd (stream_at self.old stream.0) (as_parcel parcel)) }
        ensures fault { IfErr result (λ fault. IsNotAdded (stream_at self.old stream.0) (as_parcel parcel) fault) }
        ensures no_memory { result ≡ Err (Refused NoMemory)
            → IsBelow (as_parcel parcel ∷ []) (stream_at self.old stream.0).parcels → ⊥ }
        ensures refused { OnErr result (self.new ≡ self.old) }
    {
        let _cpu = parcel.cpu();
        if let Some(known) = self.streams.get_mut(&stream.0) {
            return known.add(parcel);
        }
        let mut first = StreamCollector::new(self.alloc);
        let added = first.add(parcel)?;
        if added == Added::New && self.streams.insert(stream.0, first).is_err() {
            return Err(AddFault::Refused(collector::AddFault::NoMemory));
        }
        Ok(added)
    }
}
