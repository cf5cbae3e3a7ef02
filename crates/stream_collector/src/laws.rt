//! Laws over what is known of a stream: each number is accounted for once, and forgetting changes nothing above.
ghost use Rattle.std.specs.Prelude.{◌≡◌, ℕ, ◌<◌, ◌≤◌, ◌↔◌, ◌⊎◌, ◌++◌, List, Some};
ghost use Rattle.trace_model.specs.Parcel.{Parcel};
ghost use Rattle.trace_model.specs.declared.numbers.Moment.{Moment};
ghost use Rattle.trace_model.specs.Record.{Record};
ghost use Rattle.trace_model.specs.Collection.{Has, Agree};
ghost use Rattle.stream_collector.specs.Stream.{Stream, bound_of, HasRecord, IsMissing, IsUndelivered};
ghost use Rattle.stream_collector.specs.Stream.{IsOpen, HasOutcome, IsUnknownYet};
ghost use Rattle.stream_collector.specs.Forgetting.{HasBound, GivesUpBelow};
ghost use Rattle.stream_collector.specs.Frontier.{IsFrontier, IsCpuThere, IsCut, IsForgottenBefore, NeverFall};
ghost use Rattle.stream_collector.specs.Marking.{AreWithinEnds};
ghost use Rattle.stream_collector.specs.Merging.{IsMerge};
ghost use Rattle.stream_collector.specs.Same.{IsSameStream};

/// From its bound on each number of a CPU has a record, or is missing, or is undelivered, or is open: one of these, and
/// no two of them.
pub fn each_number_is_accounted_once()
    ensures one { (s : Stream) (cpu n : ℕ) → bound_of s cpu ≤ n → (IsOpen s cpu n ⊎ HasOutcome s cpu n) }
    ensures not_open { (s : Stream) (cpu n : ℕ) → HasOutcome s cpu n → IsOpen s cpu n → ⊥ }
    ensures one_record { (s : Stream) (cpu n : ℕ) (r other : Record) → Agree s.parcels →
        HasRecord s cpu n r → HasRecord s cpu n other → r ≡ other }
    ensures record_not_missing { (s : Stream) (cpu n : ℕ) (r : Record) → Agree s.parcels →
        HasRecord s cpu n r → IsMissing s cpu n → ⊥ }
    ensures record_not_undelivered { (s : Stream) (cpu n : ℕ) (r : Record) →
        HasRecord s cpu n r → IsUndelivered s cpu n → ⊥ }
    ensures missing_not_undelivered { (s : Stream) (cpu n : ℕ) →
        IsMissing s cpu n → IsUndelivered s cpu n → ⊥ }
{}

/// The watermark, the least open number, is the least unknown one if any is.
pub fn the_watermark_is_unknown_first()
    ensures { (s : Stream) (cpu watermark n : ℕ) → IsOpen s cpu watermark →
        ((m : ℕ) → bound_of s cpu ≤ m → m < watermark → HasOutcome s cpu m) →
        IsUnknownYet s cpu n → IsUnknownYet s cpu watermark × (watermark ≤ n) }
{}

/// When a bound is raised, nothing changes from the new bounds on: each number has the same record there, or is
/// missing, undelivered or unknown, as before. If numbers are given up too, all that were unknown below the bound are
/// undelivered. What is undelivered stays so, on either side of the bound.
pub fn forgetting_changes_nothing_above()
    ensures records { (old new : Stream) (cpu bound : ℕ) → bound_of old cpu ≤ bound → HasBound old new cpu bound →
        (c n : ℕ) (r : Record) → bound_of new c ≤ n → (HasRecord old c n r ↔ HasRecord new c n r) }
    ensures missing { (old new : Stream) (cpu bound : ℕ) → bound_of old cpu ≤ bound → HasBound old new cpu bound →
        (c n : ℕ) → bound_of new c ≤ n → (IsMissing old c n ↔ IsMissing new c n) }
    ensures undelivered { (old new : Stream) (cpu bound : ℕ) → bound_of old cpu ≤ bound →
        HasBound old new cpu bound →
        ((new.given_up ≡ old.given_up) ⊎ GivesUpBelow old new.given_up cpu bound) →
        (c n : ℕ) → bound_of new c ≤ n → (IsUndelivered old c n ↔ IsUndelivered new c n) }
    ensures unknown { (old new : Stream) (cpu bound : ℕ) → bound_of old cpu ≤ bound →
        HasBound old new cpu bound →
        ((new.given_up ≡ old.given_up) ⊎ GivesUpBelow old new.given_up cpu bound) →
        (c n : ℕ) → bound_of new c ≤ n → (IsUnknownYet old c n ↔ IsUnknownYet new c n) }
    ensures stays_undelivered { (old new : Stream) (cpu bound : ℕ) → bound_of old cpu ≤ bound →
        HasBound old new cpu bound →
        ((new.given_up ≡ old.given_up) ⊎ GivesUpBelow old new.given_up cpu bound) →
        (c n : ℕ) → IsUndelivered old c n → IsUndelivered new c n }
    ensures given_up { (old new : Stream) (cpu bound n : ℕ) → HasBound old new cpu bound →
        GivesUpBelow old new.given_up cpu bound → IsUnknownYet old cpu n → n < bound → IsUndelivered new cpu n }
{}

/// If each CPU's bound is raised to its cut at a moment, nothing changes from the new bounds on, and what is
/// undelivered stays so.
pub fn forgetting_before_changes_nothing_above()
    ensures records { (old new : Stream) (moment : ℕ) → IsForgottenBefore old new moment →
        (c n : ℕ) (r : Record) → bound_of new c ≤ n → (HasRecord old c n r ↔ HasRecord new c n r) }
    ensures missing { (old new : Stream) (moment : ℕ) → IsForgottenBefore old new moment →
        (c n : ℕ) → bound_of new c ≤ n → (IsMissing old c n ↔ IsMissing new c n) }
    ensures undelivered { (old new : Stream) (moment : ℕ) → IsForgottenBefore old new moment →
        (c n : ℕ) → bound_of new c ≤ n → (IsUndelivered old c n ↔ IsUndelivered new c n) }
    ensures stays_undelivered { (old new : Stream) (moment : ℕ) → IsForgottenBefore old new moment →
        (c n : ℕ) → IsUndelivered old c n → IsUndelivered new c n }
    ensures unknown { (old new : Stream) (moment : ℕ) → IsForgottenBefore old new moment →
        (c n : ℕ) → bound_of new c ≤ n → (IsUnknownYet old c n ↔ IsUnknownYet new c n) }
{}

/// If the moments of a CPU of which something is there never fall, each of its records from its cut at the frontier on
/// is at or after the frontier: those that are known, and those of parcels that come later, agree with the known ones
/// and stay within the ends.
pub fn what_comes_is_not_before_the_frontier()
    ensures { (s : Stream) (later : List Parcel) (frontier : Moment) (cpu cut : ℕ) → IsFrontier s (Some frontier) →
        IsCpuThere s cpu → IsCut s cpu frontier.0 cut → Agree (s.parcels ++ later) →
        AreWithinEnds record s { parcels = s.parcels ++ later } → NeverFall (s.parcels ++ later) cpu →
        (n : ℕ) (r : Record) → cut ≤ n → Has (s.parcels ++ later) cpu n r → frontier.0 ≤ r.moment }
{}

/// From the new bounds on a merged stream has the records of both, and misses the numbers that either misses.
pub fn merging_is_the_union()
    ensures records { (a b ab : Stream) → IsMerge a b ab → (cpu n : ℕ) (r : Record) → bound_of ab cpu ≤ n →
        (HasRecord ab cpu n r ↔ (HasRecord a cpu n r ⊎ HasRecord b cpu n r)) }
    ensures missing { (a b ab : Stream) → IsMerge a b ab → (cpu n : ℕ) → bound_of ab cpu ≤ n →
        (IsMissing ab cpu n ↔ (IsMissing a cpu n ⊎ IsMissing b cpu n)) }
{}

/// The order, the grouping and the repeats of merges don't matter: they give the same stream.
pub fn merging_in_any_order_is_the_same()
    ensures either_way { (a b ab ba : Stream) → IsMerge a b ab → IsMerge b a ba → IsSameStream ab ba }
    ensures regrouped { (a b c ab bc left right : Stream) → IsMerge a b ab → IsMerge ab c left →
        IsMerge b c bc → IsMerge a bc right → IsSameStream left right }
    ensures itself { (a new : Stream) → IsMerge a a new → IsSameStream new a }
{}
