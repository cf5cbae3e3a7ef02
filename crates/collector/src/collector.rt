//! A collector: the parcels that it keeps, and in which of them each number is.
use crate::cpus::KnownCpus;
use crate::index::Index;
use crate::ranges::Stretch;
use page_numbers::Parcel;
use std::alloc::Global;
use std::fmt;
use std::marker::Model;
use trace_model::{CpuId, NoMemory};

/// What the parcels that were added have and miss together. It keeps those that add something, and shares their
/// pages.
///
/// ```
/// let mut collector = Collector::new(rt.alloc());
/// assert!(rt; collector.add(parcel.share()?) == Ok(Added::New));
/// assert!(rt; collector.add(parcel) == Ok(Added::Known));
/// assert!(rt; collector.get(CpuId(0), RecordNo(1)).is_some());
/// ```
#[derive(Drop)]
pub struct Collector {
    parcels: Vec<Parcel>,
    index: Index,
}

impl Model for Collector {
    ghost use Rattle.std.specs.Prelude.{List};
    ghost use Rattle.trace_model.specs.Parcel.{Parcel as ParcelSeen};
    ghost use Rattle.page_numbers.specs.Parcels.{as_parcels};
    ghost use Rattle.collector.specs.Index.{IsIndexed};

    ghost Value = { List ParcelSeen };

    ghost view = { λ c. as_parcels c.parcels.items };

    ghost invariant = { λ c. IsIndexed (as_parcels c.parcels.items) c.index };
}

impl Collector {
    ghost use Rattle.std.specs.Prelude.{◌≡◌, ℕ, ◌+◌, ◌-◌, ◌<◌, ◌≤◌, ◌↔◌, IsTrue, List, [], ◌∷◌, ◌++◌, length, take};
    ghost use Rattle.std.specs.Prelude.{slice_get, Some, IfOk, OnOk, OnErr};
    ghost use Rattle.trace_model.specs.Collection.{Agree};
    ghost use Rattle.page_numbers.specs.Parcels.{as_parcel, as_parcels};
    ghost use Rattle.collector.specs.Sound.{AreSound};
    ghost use Rattle.collector.specs.Shown.{IsUnknown, IsContentAt};
    ghost use Rattle.collector.specs.Known.{IsKnown, IsCpuKnown, AreCpusOf};
    ghost use Rattle.collector.specs.Index.{IsIndexed};

    /// A collector that keeps no parcel.
    pub fn new(alloc: Global) -> Collector
        ensures { result ≡ [] }
    {
        Collector {
            parcels: Vec::new(alloc),
            index: Index::new(alloc),
        }
    }

    /// The kept parcels, in the order in which they were added. They agree, and the collector has and misses what
    /// they have and miss together.
    // (What `agree` and `sound` say holds of each collector, and is known where this was called. Where only that is
    // needed, it is written `let _parcels = collector.parcels();` and takes no time.)
    pub fn parcels(&self) -> &[Parcel]
        ensures parcels { as_parcels result.now ≡ self.now }
        ensures agree { Agree self.now }
        ensures sound { AreSound self.now }
    {
        let _index = &self.index;
        self.parcels.as_slice()
    }

    /// The kept parcel at an index.
    pub(crate) fn parcel(&self, index: usize) -> &Parcel
        requires { index < length self.now }
        ensures { slice_get self.now index ≡ Some (as_parcel result.now) }
    {
        &self.parcels[index]
    }

    /// What is known of a number of a CPU and of those after it.
    pub(crate) fn stretch(&self, cpu: CpuId, number: u64) -> Stretch
        ensures here { IsContentAt self.now cpu.0 number result.content }
        ensures shown { (n : ℕ) → number ≤ n → n < result.end → IsContentAt self.now cpu.0 n result.content }
        ensures goes_on { number < u64.MAX → number < result.end }
        ensures agree { Agree self.now }
    {
        self.index.stretch(cpu, number)
    }

    /// The CPUs of which something is known, by rising number.
    pub fn cpus(&self) -> KnownCpus<'_>
        ensures { AreCpusOf self.now result }
    {
        KnownCpus {
            numbers: self.index.cpus(),
        }
    }

    /// Whether something is known of a CPU.
    pub(crate) fn knows(&self, cpu: CpuId) -> bool
        ensures { IsTrue result ↔ IsCpuKnown self.now cpu.0 }
    {
        self.index.has(cpu)
    }

    /// The number after the last one of a CPU that has a record or is missing, or 0 if nothing is known of the CPU. It
    /// is found from the back, without a walk over all that is known.
    pub fn known_end(&self, cpu: CpuId) -> u64
        ensures behind { (n : ℕ) → result ≤ n → IsUnknown self.now cpu.0 n }
        ensures last { 0 < result → IsKnown self.now cpu.0 (result - 1) }
    {
        self.index.end(cpu)
    }

    /// Keeps a parcel that agrees with those that are kept, and has or misses something.
    pub(crate) fn keep(&mut self, parcel: Parcel) -> Result<(), NoMemory>
        requires agree { Agree (self.old ++ as_parcel parcel ∷ []) }
        requires some { 0 < (as_parcel parcel).missed + length (as_parcel parcel).records }
        ensures kept { OnOk result (self.new ≡ self.old ++ as_parcel parcel ∷ []) }
        ensures refused { OnErr result (self.new ≡ self.old) }
    {
        let first = parcel.first().0;
        let low = first - parcel.missed();
        let end = first + parcel.count();
        self.parcels.reserve(1)?;
        self.index
            .lay(parcel.cpu(), low, first, end, self.parcels.len())?;
        self.parcels.push(parcel)?;
        Ok(())
    }

    /// A second index that states the same.
    pub(crate) fn copied_index(&self) -> Result<Index, NoMemory>
        ensures { IfOk result (λ copy. IsIndexed self.now copy) }
    {
        Ok(self.index.copied()?)
    }

    /// Keeps only the first `count` parcels, of which this is the index.
    pub(crate) fn go_back(&mut self, count: usize, index: Index)
        requires { IsIndexed (take count self.old) index }
        ensures { self.new ≡ take count self.old }
    {
        self.parcels.truncate(count);
        self.index = index;
    }
}

/// The parcels that it keeps.
impl fmt::Debug for Collector {
    fn fmt<W: fmt::Write>(&self, f: &mut fmt::Formatter<W>) -> fmt::Result {
        f.debug_struct("Collector")
            .field("parcels", &self.parcels)
            .finish_non_exhaustive()
    }
}
