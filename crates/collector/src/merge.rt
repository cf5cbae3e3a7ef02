//! Merging two collectors.
use crate::beside::Beside;
use crate::collector::Collector;
use crate::entries::first_difference;
use crate::fault::AddFault;
use trace_model::{CpuId, RecordNo};

impl Collector {
    ghost use Rattle.std.specs.Prelude.{◌≡◌, ◌≢◌, ℕ, ◌<◌, ◌↔◌, ◌++◌, length, take, IsTrue, IfErr, OnOk, OnErr};
    ghost use Rattle.trace_model.specs.Collection.{Agree, IsBelow, IsLeastUpperBound};
    ghost use Rattle.collector.specs.Beside.{FitTogether};
    ghost use Rattle.collector.specs.Faults.{IsAddFault};
    ghost use Rattle.collector.specs.Merged.{IsMerged};
    ghost use Rattle.collector.specs.declared.fault.AddFault.TheVariants.{NoMemory};

    /// Adds the other's records and missing numbers to those here: the result is the least collector above both. The
    /// other's parcels are shared; those that add something are kept, in their order. If the two are at odds, the fault
    /// is that of the least CPU and number, and nothing has changed. `NoMemory` is answered only if the other has or
    /// misses something that isn't here.
    pub fn merge(&mut self, other: &Collector) -> Result<(), AddFault>
        ensures join { OnOk result (IsLeastUpperBound self.old other.now self.new) }
        ensures kept { OnOk result (IsMerged self.old other.now self.new) }
        ensures fault { IfErr result (λ fault. IsAddFault (self.old ++ other.now) fault) }
        ensures no_memory { result ≡ Err NoMemory → IsBelow other.now self.old → ⊥ }
        ensures refused { OnErr result (self.new ≡ self.old) }
    {
        self.look_at_all(other)?;
        if self.holds_all(other) {
            return Ok(());
        }
        let count = self.parcels().len();
        let index = self.copied_index()?;
        if self.add_all(other).is_err() {
            self.go_back(count, index);
            return Err(AddFault::NoMemory);
        }
        Ok(())
    }

    /// Whether all that the other has and misses is here.
    fn holds_all(&self, other: &Collector) -> bool
        ensures { IsTrue result ↔ IsBelow other.now self.now }
    {
        for parcel in other.parcels() {
            if !self.holds(parcel) {
                return false;
            }
        }
        true
    }

    /// Adds the other's parcels, in their order, with which those here agree. If memory is refused, some of them are
    /// added.
    fn add_all(&mut self, other: &Collector) -> Result<(), AddFault>
        requires { Agree (self.old ++ other.now) }
        ensures join { OnOk result (IsLeastUpperBound self.old other.now self.new) }
        ensures kept { OnOk result (IsMerged self.old other.now self.new) }
        ensures refused { OnErr result (take (length self.old) self.new ≡ self.old) }
    {
        for parcel in other.parcels() {
            self.add(parcel.share()?)?;
        }
        Ok(())
    }

    /// Looks whether two collectors are at odds.
    fn look_at_all(&self, other: &Collector) -> Result<(), AddFault>
        ensures agree { OnOk result (Agree (self.now ++ other.now)) }
        ensures fault { IfErr result (λ fault. IsAddFault (self.now ++ other.now) fault) }
        ensures at_odds { IfErr result (λ fault. fault ≢ NoMemory) }
    {
        let _kept = self.parcels();
        let _others = other.parcels();
        for cpu in other.cpus() {
            self.look_at_cpu(other, cpu)?;
        }
        Ok(())
    }

    /// Looks whether both fit together on one CPU, if they aren't at odds on those before it.
    fn look_at_cpu(&self, other: &Collector, cpu: CpuId) -> Result<(), AddFault>
        requires { (c n : ℕ) → c < cpu.0 → n < u64.MAX → FitTogether self.now other.now c n }
        ensures fits { OnOk result ((n : ℕ) → n < u64.MAX → FitTogether self.now other.now cpu.0 n) }
        ensures fault { IfErr result (λ fault. IsAddFault (self.now ++ other.now) fault) }
        ensures at_odds { IfErr result (λ fault. fault ≢ NoMemory) }
    {
        let _kept = self.parcels();
        let mut at = 0;
        while at < u64::MAX {
            let both = self.beside_known(other, cpu, at);
            match both.beside {
                Beside::Records(here, there) => {
                    if let Some(number) = first_difference(
                        self.parcel(here),
                        other.parcel(there),
                        at,
                        both.end,
                    ) {
                        return Err(AddFault::Clash(cpu, RecordNo(number)));
                    }
                }
                Beside::AtOdds => return Err(AddFault::TakenAndMissing(cpu, RecordNo(at))),
                Beside::Alike => {}
                Beside::OneKnows => {}
            }
            at = both.next;
        }
        Ok(())
    }
}
