//! What the kernel's counters say of a loss of unknown number.
ghost use Rattle.std.specs.Prelude.{◌≡◌, ◌≢◌, ℕ, true, List, Option, Some};
ghost use Rattle.std.specs.List.{sum_by};
ghost use Rattle.trace_model.specs.Partition.{Piece};
ghost use Rattle.capture.specs.Pages.{Page};
ghost use Rattle.capture.specs.Rings.{AreReported, HaveCounts};
ghost use Rattle.capture.specs.files.Losses.{unknown_losses, are_intact, settled};

/// A settled loss is the true one: if the pages of a CPU are pieces of its ring, each reads, one states a loss of
/// unknown number, and the kernel's counter says how many records the pieces skip, then the settled pages are the same
/// pieces, and each states its loss. So their parcels are the ring's (`counted_captures_are_genuine` of `capture`).
/// With no such loss, or several, the pages stay as they are.
pub fn settled_losses_are_true()
    ensures one { (pages : List Page) (pieces : List Piece) (overrun : ℕ) → AreReported pages pieces
        → are_intact pages ≡ true → unknown_losses pages ≡ 1 → overrun ≡ sum_by (λ p. p.skipped) pieces
        → AreReported (settled (Some overrun) pages) pieces × HaveCounts (settled (Some overrun) pages) }
    ensures others { (pages : List Page) (overrun : Option ℕ) → unknown_losses pages ≢ 1
        → settled overrun pages ≡ pages }
{}
