//! Adding a parcel.
use crate::added::Added;
use crate::collector::Collector;
use crate::entries::first_difference;
use crate::fault::AddFault;
use crate::ranges::Content;
use page_numbers::Parcel;
use trace_model::RecordNo;

impl Collector {
    ghost use Rattle.std.specs.Prelude.{◌≡◌, ◌≢◌, ℕ, ◌+◌, ◌-◌, ◌<◌, ◌≤◌, ◌↔◌, [], ◌∷◌, ◌++◌, length, IsTrue, MatchBool};
    ghost use Rattle.std.specs.Prelude.{Ok, IfOk, IfErr, OnOk, OnErr};
    ghost use Rattle.trace_model.specs.Collection.{Agree, IsBelow, IsSame};
    ghost use Rattle.page_numbers.specs.Parcels.{as_parcel};
    ghost use Rattle.collector.specs.Adding.{FitsAt, IsLookedAt};
    ghost use Rattle.collector.specs.Faults.{IsAddFault};
    ghost use Rattle.collector.specs.declared.added.Added.TheVariants.{New, Known};
    ghost use Rattle.collector.specs.declared.fault.AddFault.TheVariants.{NoMemory};

    /// Adds a parcel: the collector then has and misses what it and the parcel did. It keeps the parcel, unless all
    /// that the parcel has and misses is there already. What is at odds with the kept parcels is refused under its
    /// least number, and the collector stays as it was; the parcel is dropped. `NoMemory` is answered only if the
    /// parcel has or misses something that isn't here, and nothing is at odds.
    pub fn add(&mut self, parcel: Parcel) -> Result<Added, AddFault>
        ensures new { result ≡ Ok New → self.new ≡ self.old ++ as_parcel parcel ∷ [] }
        ensures known { result ≡ Ok Known → self.new ≡ self.old }
        ensures known_exactly { IfOk result (λ added. (added ≡ Known) ↔ IsBelow (as_parcel parcel ∷ []) self.old) }
        ensures union { OnOk result (IsSame self.new (self.old ++ as_parcel parcel ∷ [])) }
        ensures agree { OnOk result (Agree (self.old ++ as_parcel parcel ∷ [])) }
        ensures fault { IfErr result (λ fault. IsAddFault (self.old ++ as_parcel parcel ∷ []) fault) }
        ensures no_memory { result ≡ Err NoMemory → IsBelow (as_parcel parcel ∷ []) self.old → ⊥ }
        ensures refused { OnErr result (self.new ≡ self.old) }
    {
        if !self.would_grow(&parcel)? {
            return Ok(Added::Known);
        }
        self.keep(parcel)?;
        Ok(Added::New)
    }

    /// Whether all that a parcel has and misses is here already: whether adding it would change nothing. What is at
    /// odds with the kept parcels isn't here. No memory is asked for.
    pub fn holds(&self, parcel: &Parcel) -> bool
        ensures { IsTrue result ↔ IsBelow (as_parcel parcel.now ∷ []) self.now }
    {
        let _kept = self.parcels();
        match self.would_grow(parcel) {
            Ok(grows) => !grows,
            Err(_) => false,
        }
    }

    /// Whether a parcel that agrees with the kept ones adds something to them.
    fn would_grow(&self, parcel: &Parcel) -> Result<bool, AddFault>
        ensures grows { IfOk result (λ grows. MatchBool grows (IsBelow (as_parcel parcel.now ∷ []) self.now → ⊥)
            (IsBelow (as_parcel parcel.now ∷ []) self.now)) }
        ensures agree { OnOk result (Agree (self.now ++ as_parcel parcel.now ∷ [])) }
        ensures fault { IfErr result (λ fault. IsAddFault (self.now ++ as_parcel parcel.now ∷ []) fault) }
        ensures at_odds { IfErr result (λ fault. fault ≢ NoMemory) }
    {
        let missing_grow = self.look_at_missing(parcel)?;
        let records_grow = self.look_at_records(parcel)?;
        Ok(missing_grow || records_grow)
    }

    /// Looks whether a parcel's missing numbers have records here, and whether they add something.
    fn look_at_missing(&self, parcel: &Parcel) -> Result<bool, AddFault>
        ensures seen { IfOk result (λ grows. IsLookedAt self.now (as_parcel parcel.now)
            (parcel.now.page.first - parcel.now.missed) parcel.now.page.first grows) }
        ensures fault { IfErr result (λ fault. IsAddFault (self.now ++ as_parcel parcel.now ∷ []) fault) }
        ensures at_odds { IfErr result (λ fault. fault ≢ NoMemory) }
    {
        let cpu = parcel.cpu();
        let first = parcel.first().0;
        let mut at = first - parcel.missed();
        let mut grows = false;
        while at < first {
            let stretch = self.stretch(cpu, at);
            match stretch.content {
                Some(Content::Kept(_)) => {
                    return Err(AddFault::TakenAndMissing(cpu, RecordNo(at)));
                }
                Some(Content::Missing) => {}
                None => grows = true,
            }
            at = stretch.end.min(first);
        }
        Ok(grows)
    }

    /// Looks whether a parcel's records, whose missing numbers fit, are at odds with what is here, and whether they add
    /// something.
    fn look_at_records(&self, parcel: &Parcel) -> Result<bool, AddFault>
        requires { (n : ℕ) → parcel.now.page.first - parcel.now.missed ≤ n → n < parcel.now.page.first
            → FitsAt self.now (as_parcel parcel.now) parcel.now.cpu n }
        ensures seen { IfOk result (λ grows. IsLookedAt self.now (as_parcel parcel.now)
            parcel.now.page.first (parcel.now.page.first + length (as_parcel parcel.now).records) grows) }
        ensures agree { Agree self.now }
        ensures fault { IfErr result (λ fault. IsAddFault (self.now ++ as_parcel parcel.now ∷ []) fault) }
        ensures at_odds { IfErr result (λ fault. fault ≢ NoMemory) }
    {
        let _kept = self.parcels();
        let cpu = parcel.cpu();
        let mut at = parcel.first().0;
        let end = at + parcel.count();
        let mut grows = false;
        while at < end {
            let stretch = self.stretch(cpu, at);
            let until = stretch.end.min(end);
            match stretch.content {
                Some(Content::Kept(index)) => {
                    if let Some(number) = first_difference(parcel, self.parcel(index), at, until) {
                        return Err(AddFault::Clash(cpu, RecordNo(number)));
                    }
                }
                Some(Content::Missing) => {
                    return Err(AddFault::TakenAndMissing(cpu, RecordNo(at)));
                }
                None => grows = true,
            }
            at = until;
        }
        Ok(grows)
    }
}
