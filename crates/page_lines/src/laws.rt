//! What is said of pages that are read one after the other is what a capture of them says.
ghost use Rattle.std.specs.Prelude.{◌≡◌, ◌<◌, ◌≤◌, ℕ, false, List, [], None, map, slice_index_or};
ghost use Rattle.collector.specs.Listed.{AreRecordsOf};
ghost use Rattle.trace_model.specs.Listing.{Line as ModelLine, IsListing};
ghost use Rattle.time_merge.specs.Walks.{TakesAll};
ghost use Rattle.page_lines.specs.Sources.{ArePlain, IsFresh, NeverFall, Passes, PassesLine, Reading, ReadsAll};
ghost use Rattle.trace_model.specs.declared.numbers.CpuId.{CpuId};
ghost use Rattle.page_image.specs.declared.image.Missed.{Missed};
ghost use Rattle.time_merge.specs.Heads.{first_in};
ghost use Rattle.capture.specs.Smaller.{smaller_pages};
ghost use Rattle.capture.specs.files.Files.{is_dat};
ghost use Rattle.capture.specs.Pages.{AreCut, Page, parcels_from};
ghost use Rattle.collector.specs.Runs.{AreMissingRuns};
ghost use Rattle.time_merge.specs.Merging.{merged_lists};
ghost use Rattle.capture.specs.Rings.{parcels_of_captures};
ghost use Rattle.page_lines.specs.Spread.{OwnPages, RiseBelow, spread, own_lines, NoneFalls};
ghost use Rattle.page_lines.specs.Tallies.{runs_from, entries_from};

use command_io::Source;

/// The runs are those of the numbers that the pages' parcels miss.
pub fn runs_are_those_of_parcels()
    ensures { (cpu fill : ℕ) (pages : List Page) → AreMissingRuns (parcels_from cpu fill 0 pages) cpu
        (runs_from 0 0 pages) }
{}

/// The records, by rising number, are those of the pages' parcels.
pub fn records_are_those_of_parcels()
    ensures { (cpu fill next : ℕ) (pages : List Page) → AreRecordsOf (parcels_from cpu fill next pages) cpu
        (entries_from next pages) }
{}

/// Lines that a source has given, one after the other, are those of the pages that it has read, and their moments don't
/// fall.
pub fn passed_lines_are_those_of_pages<R: Source>()
    ensures all { (old new : Reading R) (lines : List ModelLine) → TakesAll (PassesLine R.remaining) old lines new
        → Passes R.remaining old lines new }
    ensures sorted { (old new : Reading R) (lines : List ModelLine)
        → TakesAll (PassesLine R.remaining) old lines new → NeverFall 0 lines }
{}

/// The lines of some CPUs, merged by their moments, are the listing of the captures of all CPUs, if the moments of none
/// of them fall; and the runs of each CPU are those of the numbers that these miss.
pub fn merged_lines_are_those_of_captures()
    ensures lines { (count : ℕ) (owns : List OwnPages) → RiseBelow 0 count owns → NoneFalls owns
        → IsListing (parcels_of_captures 0 (spread 0 count owns)) (merged_lists (map own_lines owns)) }
    ensures runs { (captures : List (List Page)) (cpu : ℕ) → AreMissingRuns (parcels_of_captures 0 captures) cpu
        (slice_index_or (map (runs_from 0 0) captures) cpu []) }
{}

/// A source that was opened, and has given lines until none was left, has read all pages of its reader, and given their
/// lines.
pub fn a_source_without_a_line_has_read_all<R: Source>()
    ensures { (cpu : CpuId) (reader : R) (size : ℕ) (known : Missed) (fresh opened ended : Reading R)
        (lines : List ModelLine)
        → IsFresh cpu reader size known fresh → Passes R.remaining fresh [] opened
        → TakesAll (PassesLine R.remaining) opened lines ended → first_in ended.left ≡ None
        → ReadsAll R.remaining cpu reader size known lines ended }
{}

/// Pages that are plain are those of a raw file, none of which shows smaller ones.
pub fn plain_pages_are_raw()
    ensures cut { (size : ℕ) (bytes : List ℕ) (pages : List Page) → ArePlain size bytes pages
        → AreCut size bytes pages }
    ensures smaller { (size : ℕ) (bytes : List ℕ) (pages : List Page) → 0 < size → ArePlain size bytes pages
        → smaller_pages size bytes ≡ None }
    ensures raw { (size : ℕ) (bytes : List ℕ) (pages : List Page) → 48 ≤ size → ArePlain size bytes pages
        → is_dat [] bytes ≡ false }
{}
