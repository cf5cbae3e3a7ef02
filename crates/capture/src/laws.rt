//! What a capture says of the ring that it was taken from.
ghost use Rattle.std.specs.Prelude.{◌-◌, ◌≡◌, ◌≢◌, ℕ, ◌+◌, ◌*◌, ◌^◌, ◌<◌, ◌≤◌, ◌++◌, true, List, length, map, Some};
ghost use Rattle.std.specs.Prelude.{None, replicate};
ghost use Rattle.std.specs.List.{slice_get, AllByRecursion};
ghost use Rattle.trace_model.specs.Record.{Record};
ghost use Rattle.trace_model.specs.Order.{first_moment_or, NeverFalls, IsWritable};
ghost use Rattle.trace_model.specs.Words.{page_encoding};
ghost use Rattle.trace_model.specs.Partition.{Piece, first_of};
ghost use Rattle.trace_model.specs.Parcel.{Parcel, AreGenuine};
ghost use Rattle.trace_model.specs.Image.{unknown, has_room, image_of, missed_reported, from_le64};
ghost use Rattle.trace_model.specs.ParcelBytes.{AgreesWith};
ghost use Rattle.trace_model.specs.Collection.{Agree};
ghost use Rattle.trace_model.specs.declared.limits.TheConstants.{MAX_IMAGE};
ghost use Rattle.capture.specs.Pages.{PageRead, Page, intact, told, least_missed, IsPageOf, AreCut, parcels_from};
ghost use Rattle.capture.specs.Rings.{AreReported, HaveCounts, IsAtMost, parcels_of_captures, FitsImage, images_from};
ghost use Rattle.capture.specs.Rings.{page_written};
ghost use Rattle.capture.specs.stamps.Restored.{stated_size};
ghost use Rattle.capture.specs.Smaller.{begins_page, comes_after, has_page_at, smaller_in, smaller_pages};

/// Bytes are cut into pages of a size in one way at most.
pub fn captures_have_one_reading()
    ensures { (size : ℕ) (bytes : List ℕ) (pages others : List Page) → AreCut size bytes pages
        → AreCut size bytes others → pages ≡ others }
{}

/// A page stays as it is, if its loss of unknown number is still unknown.
pub fn unknown_losses_stay()
    ensures { (page : Page) → told unknown page ≡ page }
{}

/// If each page reads, and states how many records were lost, the parcels are the ring's: one for each of its pieces,
/// at its own place, with its records, its loss and its first number, and no others.
pub fn counted_captures_are_genuine()
    ensures genuine { (cpu : ℕ) (pages : List Page) (pieces : List Piece) → AreReported pages pieces → HaveCounts pages
        → AreGenuine (parcels_from cpu 0 0 pages) (λ c. pieces) }
    ensures all { (cpu : ℕ) (pages : List Page) (pieces : List Piece) → AreReported pages pieces → HaveCounts pages
        → (k : ℕ) (p : Piece) → slice_get pieces k ≡ Some p
        → (first : ℕ) × (first_of pieces k ≡ Some first) × (slice_get (parcels_from cpu 0 0 pages) k
        ≡ Some record { cpu = cpu; fill = k; first = first; missed = p.skipped; records = p.records }) }
    ensures as_many { (cpu : ℕ) (pages : List Page) (pieces : List Piece) → AreReported pages pieces → HaveCounts pages
        → length (parcels_from cpu 0 0 pages) ≡ length pieces }
{}

/// In every capture a parcel's records are those of the piece at the place of its page, its numbers are no higher than
/// theirs, and no more is missing before it than was lost. Each page that reads has its parcel, with its place as the
/// fill.
pub fn numbers_are_least()
    ensures least { (cpu : ℕ) (pages : List Page) (pieces : List Piece) → AreReported pages pieces
        → (k : ℕ) (parcel : Parcel) → slice_get (parcels_from cpu 0 0 pages) k ≡ Some parcel
        → IsAtMost parcel pieces }
    ensures each { (cpu : ℕ) (pages : List Page) (k : ℕ) (read : PageRead) → slice_get pages k ≡ Some (intact read)
        → (j first : ℕ) × (slice_get (parcels_from cpu 0 0 pages) j ≡ Some record {
          cpu = cpu;
          fill = k;
          first = first;
          missed = least_missed read.missed;
          records = read.records;
        }) }
{}

/// Parcels of captures contradict each other in no number, so a collector takes them all; in one capture the numbers of
/// a later page are above those of each earlier one.
pub fn captures_agree()
    ensures one { (cpu fill next : ℕ) (pages : List Page) → Agree (parcels_from cpu fill next pages) }
    ensures several { (cpu : ℕ) (captures : List (List Page)) → Agree (parcels_of_captures cpu captures) }
    ensures rising { (cpu fill next : ℕ) (pages : List Page) (j k : ℕ) (a b : Parcel) → j < k
        → slice_get (parcels_from cpu fill next pages) j ≡ Some a
        → slice_get (parcels_from cpu fill next pages) k ≡ Some b
        → (a.fill < b.fill) × (a.first + length a.records + b.missed ≤ b.first) }
{}

/// The images that are written of a ring's pieces, one after the other, are a capture of it, if fewer than 2^64 - 1
/// records were lost before each: they are cut into those pages, with their records; each states of what was lost what
/// agrees with its number, and the number itself if it has room for it.
pub fn written_images_are_pages()
    ensures page { (records : List Record) (time missed size : ℕ) → NeverFalls records
        → AllByRecursion IsWritable records → first_moment_or time records < 2 ^ 64 → missed < 2 ^ 64 - 1
        → length (page_encoding records) ≤ size → 16 + size ≤ MAX_IMAGE
        → IsPageOf (image_of (first_moment_or time records) (page_encoding records) missed size)
        (intact record { missed = missed_reported (page_encoding records) missed size; records = records }) }
    ensures agrees { (contents : List ℕ) (missed size : ℕ) → AgreesWith (missed_reported contents missed size) missed }
    ensures counts { (contents : List ℕ) (missed size : ℕ) → has_room contents size ≡ true
        → missed_reported contents missed size ≢ unknown }
    ensures list { (times : ℕ → ℕ) (size : ℕ) (pieces : List Piece) → ((k : ℕ) → times k < 2 ^ 64)
        → AllByRecursion (FitsImage size) pieces → 16 + size ≤ MAX_IMAGE
        → AreCut (16 + size) (images_from times size 0 pieces) (map (page_written size) pieces)
        × AreReported (map (page_written size) pieces) pieces }
{}

/// A page isn't taken for several, if all is zeros behind its data and the count of lost records after it, as the
/// kernel leaves it.
pub fn one_page_is_not_several()
    ensures { (page front : List ℕ) (n : ℕ) → page ≡ front ++ replicate n 0
        → length front ≤ 24 + stated_size page → smaller_in page ≡ None }
{}

/// Two pages of one size that are read as one are told apart, whatever is behind their data: if the data of the first
/// ends in it, the second one has data, and its time is as late, or later by less than 2^48. And what the first pages
/// of bytes show, all show.
pub fn several_pages_are_told()
    ensures two { (size : ℕ) (page other : List ℕ) → length page ≡ size → 16 + stated_size page ≤ size
        → 16 ≤ length other → begins_page size other ≡ true → comes_after (from_le64 page) (from_le64 other) ≡ true
        → has_page_at size (page ++ other) ≡ true }
    ensures beginning { (size n smaller : ℕ) (front behind : List ℕ) → 0 < size → length front ≡ size * n
        → smaller_pages size front ≡ Some smaller → smaller_pages size (front ++ behind) ≡ Some smaller }
{}
