//! Laws over regions.
ghost use Rattle.std.specs.Prelude.{◌≡◌, ◌≢◌, ℕ, ◌+◌, ◌<◌, ◌≤◌, ◌⊎◌, ◌++◌, List, [], length, take};
ghost use Rattle.trace_model.specs.Record.{Record};
ghost use Rattle.trace_model.specs.FirstFault.{AreBytes};
ghost use Rattle.trace_model.specs.Parcel.{Parcel, AreGenuine};
ghost use Rattle.trace_model.specs.Partition.{Piece, IsPartition};
ghost use Rattle.trace_model.specs.Collection.{Agree, Has, Misses};
ghost use Rattle.trace_model.specs.declared.limits.TheConstants.{MAX_CPUS, MAX_SIZE};
ghost use Rattle.ring_region.specs.declared.limits.TheConstants.{START, HEAD, ALIGN, VERSION_AT, PAGES_AT, SIZE_AT};
ghost use Rattle.ring_region.specs.declared.limits.TheConstants.{CPU_AT, STREAM_AT, TAKEN_AT, ENDED_AT, SLOT_CPU_AT};
ghost use Rattle.ring_region.specs.declared.limits.TheConstants.{FILL_AT, FIRST_AT, MISSED_AT, IMAGE_AT, COMMIT_AT};
ghost use Rattle.ring_region.specs.declared.faults.RegionFault.{RegionFault};
ghost use Rattle.ring_region.specs.declared.faults.RegionFault.TheVariants.{NoMemory};
ghost use Rattle.ring_region.specs.Headers.{IsRegionFault};
ghost use Rattle.ring_region.specs.Slots.{Slot, commit_in, IsSlotOf};
ghost use Rattle.ring_region.specs.Regions.{Recovered, IsRegion, last_end};
ghost use Rattle.ring_region.specs.Agreement.{AreTaken, AreLeft};

/// The numbers of a region's layout have the values that are stated here, in bytes; contracts name them, so that one
/// that is changed is refused here.
pub fn constants_are()
    ensures start { START ≡ 128 }
    ensures head { HEAD ≡ 48 }
    ensures align { ALIGN ≡ 64 }
    ensures version_at { VERSION_AT ≡ 8 }
    ensures pages_at { PAGES_AT ≡ 16 }
    ensures size_at { SIZE_AT ≡ 24 }
    ensures cpu_at { CPU_AT ≡ 32 }
    ensures stream_at { STREAM_AT ≡ 40 }
    ensures taken_at { TAKEN_AT ≡ 48 }
    ensures ended_at { ENDED_AT ≡ 56 }
    ensures slot_cpu_at { SLOT_CPU_AT ≡ 0 }
    ensures fill_at { FILL_AT ≡ 8 }
    ensures first_at { FIRST_AT ≡ 16 }
    ensures missed_at { MISSED_AT ≡ 24 }
    ensures image_at { IMAGE_AT ≡ 32 }
    ensures commit_at { COMMIT_AT ≡ 40 }
{}

/// A slot holds one thing, whatever its bytes are, and what is after its commit changes nothing.
pub fn slots_hold_one_thing()
    ensures some { (cpu : ℕ) (bytes : List ℕ) → cpu < MAX_CPUS → AreBytes bytes → length bytes ≤ HEAD + MAX_SIZE
        → (slot : Slot) × IsSlotOf cpu bytes slot }
    ensures one { (cpu : ℕ) (bytes : List ℕ) (slot other : Slot)
        → IsSlotOf cpu bytes slot → IsSlotOf cpu bytes other → slot ≡ other }
    ensures behind { (cpu : ℕ) (bytes other : List ℕ) (slot : Slot) → length other ≡ length bytes
        → take (HEAD + commit_in bytes) other ≡ take (HEAD + commit_in bytes) bytes
        → IsSlotOf cpu bytes slot → IsSlotOf cpu other slot }
{}

/// Bytes are a region or have a first fault: one of the two and never both. The region holds one thing, whatever its
/// slots are, and the fault is one.
pub fn regions_have_one_answer()
    ensures one { (bytes : List ℕ) → AreBytes bytes
        → ((held : Recovered) × IsRegion bytes held)
        ⊎ ((fault : RegionFault) × (fault ≢ NoMemory) × IsRegionFault bytes fault) }
    ensures region_is_no_fault { (bytes : List ℕ) (held : Recovered) (fault : RegionFault)
        → IsRegion bytes held → fault ≢ NoMemory → ¬ IsRegionFault bytes fault }
    ensures one_region { (bytes : List ℕ) (held other : Recovered)
        → IsRegion bytes held → IsRegion bytes other → held ≡ other }
    ensures one_fault { (bytes : List ℕ) (fault other : RegionFault) → fault ≢ NoMemory → other ≢ NoMemory
        → IsRegionFault bytes fault → IsRegionFault bytes other → fault ≡ other }
{}

/// The parcels of a region agree, whatever it holds: no number has two records, and none has one and is missing.
pub fn parcels_of_a_region_agree()
    ensures { (bytes : List ℕ) (held : Recovered) → IsRegion bytes held → Agree held.parcels }
{}

/// Parcels that are genuine for the partition of their CPU's records were taken, as it is asked of them here, if the
/// region states the number of the records that the partition covers.
pub fn genuine_parcels_are_taken()
    ensures { (records : ℕ → List Record) (pieces : ℕ → List Piece) (rest : ℕ → List Record) (before : List Parcel)
        (cpu taken : ℕ) → ((c : ℕ) → IsPartition (records c) (pieces c) (rest c)) → AreGenuine before pieces
        → taken + length (rest cpu) ≡ length (records cpu) → AreTaken (records cpu) cpu taken before }
{}

/// What is recovered agrees with what was taken before: of both together no number has two records, and none has one
/// and is missing.
pub fn recovered_and_taken_agree()
    ensures { (bytes : List ℕ) (held : Recovered) (records : List Record) (before : List Parcel)
        → IsRegion bytes held → AreTaken records held.header.cpu.0 held.header.taken.0 before
        → AreLeft records before held → Agree (before ++ held.parcels) }
{}

/// If no slot is damaged, no number is passed over, from the one that the region states as taken on up to the end of
/// its last page: each has its record, or is missing.
pub fn no_number_is_passed_over()
    ensures { (bytes : List ℕ) (held : Recovered) (number : ℕ) → IsRegion bytes held → held.damaged ≡ []
        → held.header.taken.0 ≤ number → number < last_end held.parcels
        → ((r : Record) × Has held.parcels held.header.cpu.0 number r)
        ⊎ Misses held.parcels held.header.cpu.0 number }
{}
