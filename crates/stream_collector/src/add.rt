//! Adding a parcel.
use crate::added::Added;
use crate::fault::AddFault;
use crate::stream::StreamCollector;
use page_numbers::Parcel;
use trace_model::RecordNo;

impl StreamCollector {
    ghost use Rattle.std.specs.Prelude.{◌≡◌, ℕ, ◌≤◌, ◌↔◌, [], ◌∷◌, ◌++◌, Ok, IfOk, IfErr, OnErr, IfSome, IfNone};
    ghost use Rattle.trace_model.specs.Collection.{Agree, IsBelow};
    ghost use Rattle.page_numbers.specs.Parcels.{as_parcel};
    ghost use Rattle.collector.specs.declared.fault.AddFault.TheVariants.{NoMemory};
    ghost use Rattle.stream_collector.specs.Faults.{IsForgotten, IsBeyondEnd, IsWithinEnd, IsNotAdded};
    ghost use Rattle.stream_collector.specs.declared.added.Added.TheVariants.{New, Known, Forgotten};
    ghost use Rattle.stream_collector.specs.declared.fault.AddFault.TheVariants.{Refused};

    /// Adds a parcel, unless it ends below the bound of its CPU. What is at or beyond the end of its CPU, or at odds
    /// with the kept parcels, is refused, and all stays as it was; the parcel is dropped. Memory is refused only if the
    /// parcel has or misses something that isn't here, and nothing else is wrong.
    pub fn add(&mut self, parcel: Parcel) -> Result<Added, AddFault>
        ensures new { result ≡ Ok New
            → self.new ≡ record self.old { parcels = self.old.parcels ++ as_parcel parcel ∷ [] } }
        ensures known { result ≡ Ok Known → self.new ≡ self.old }
        ensures known_exactly { result ≡ Ok Known → IsBelow (as_parcel parcel ∷ []) self.old.parcels }
        ensures new_exactly { result ≡ Ok New → IsBelow (as_parcel parcel ∷ []) self.old.parcels → ⊥ }
        ensures forgotten { (result ≡ Ok Forgotten) ↔ IsForgotten self.old (as_parcel parcel) }
        ensures forgotten_nothing { result ≡ Ok Forgotten → self.new ≡ self.old }
        ensures agree { result ≡ Ok New → Agree self.new.parcels }
        ensures within { IfOk result (λ added. (added ≡ Forgotten → ⊥) → IsWithinEnd self.old (as_parcel parcel)) }
        ensures fault { IfErr result (λ fault. IsNotAdded self.old (as_parcel parcel) fault) }
        ensures no_memory { result ≡ Err (Refused NoMemory) → IsBelow (as_parcel parcel ∷ []) self.old.parcels → ⊥ }
        ensures refused { OnErr result (self.new ≡ self.old) }
    {
        let cpu = parcel.cpu();
        let marks = self.marks(cpu);
        if marks.bound > 0 && parcel.first().0 + parcel.count() <= marks.bound {
            return Ok(Added::Forgotten);
        }
        if let Some(number) = self.beyond_end(&parcel) {
            return Err(AddFault::BeyondEnd(cpu, number));
        }
        match self.known.add(parcel)? {
            collector::Added::New => Ok(Added::New),
            collector::Added::Known => Ok(Added::Known),
        }
    }

    /// The least number that a parcel has or misses and that isn't below the end of its CPU.
    fn beyond_end(&self, parcel: &Parcel) -> Option<RecordNo>
        ensures beyond { IfSome result (λ number. IsBeyondEnd self.now (as_parcel parcel.now) parcel.now.cpu number.0) }
        ensures least { IfSome result (λ number. (least : ℕ)
            → IsBeyondEnd self.now (as_parcel parcel.now) parcel.now.cpu least → number.0 ≤ least) }
        ensures none { IfNone result (IsWithinEnd self.now (as_parcel parcel.now)) }
    {
        let low = parcel.first().0 - parcel.missed();
        let past = parcel.first().0 + parcel.count();
        match self.marks(parcel.cpu()).end {
            Some(end) if end.max(low) < past => Some(RecordNo(end.max(low))),
            _ => None,
        }
    }
}
