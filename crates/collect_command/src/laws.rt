//! That files have one listing.
ghost use Rattle.std.specs.Prelude.{◌≡◌, ◌≤◌, false, ℕ, List, [], Option, Some, None, length, map};
ghost use Rattle.std.specs.List.{AllByRecursion};
ghost use Rattle.trace_model.specs.declared.limits.TheConstants.{MAX_CPUS};
ghost use Rattle.trace_model.specs.Listing.{Line as ModelLine};
ghost use Rattle.time_merge.specs.Heads.{HaveEnded, first_in};
ghost use Rattle.time_merge.specs.SourceWalks.{AllPass};
ghost use Rattle.capture.specs.Pages.{Page};
ghost use Rattle.capture.specs.declared.files.captured.Input.{Input};
ghost use Rattle.capture.specs.files.Losses.{cpu_counters_in};
ghost use Rattle.capture_text.specs.declared.form.Form.{Form};
ghost use Rattle.capture_text.specs.Selection.{Selected};
ghost use Rattle.capture_text.specs.Window.{KnownBound};
ghost use Rattle.capture_text.specs.Listed.{listed_runs};
ghost use Rattle.page_lines.specs.Sources.{PassesLine, Reading};
ghost use Rattle.page_lines.specs.Spread.{RiseBelow};
ghost use Rattle.page_lines.specs.Tallies.{runs_from};
ghost use Rattle.collect_command.specs.Gathered.{AreCpusPages};
ghost use Rattle.collect_command.specs.Listings.{all_damaged, all_sums, all_unknown, are_all_intact};
ghost use Rattle.collect_command.specs.Paged.{AreOpened, AreRawOf, AreWhole, CpusRise, HasEnded, IsPlain};
ghost use Rattle.collect_command.specs.Paged.{IsRaw, RawFile};
ghost use Rattle.collect_command.specs.Paged.{captures_of, file_of, own_of, part_of, raw_damaged, raw_intact, raw_runs};
ghost use Rattle.collect_command.specs.Paged.{raw_unknown};
ghost use Rattle.capture.specs.files.Files.{File, ArePartsOf, all_formats, all_lines, all_others};
ghost use Rattle.capture.specs.files.Files.{first_cut, is_in_any, symbols_of};
ghost use Rattle.capture.specs.files.Files.{tasks_of};
ghost use Rattle.collect_command.specs.declared.collect.Collecting.{Collecting as CollectingSeen};
ghost use Rattle.collect_command.specs.declared.ending.Listed.{Listed as ListedSeen};
ghost use Rattle.collect_command.specs.Runs.{AskTheSame, ListsFiles, SayTheSame};

use command_io::Source;

/// Files have one listing: the files, and how they are to be listed, decide what `collect` writes of them, and what it
/// says of that, if no write fails.
pub fn one_output()
    ensures { (collecting same : CollectingSeen) (files : List File) (start text other : List ℕ)
        (one too : ListedSeen) → AskTheSame collecting same →
        ListsFiles collecting files (Some start) (Some text) false one →
        ListsFiles same files (Some start) (Some other) false too → (text ≡ other) × SayTheSame one too }
{}

/// Sources of pages that were opened for inputs, and whose lines were passed until none was left, have read these
/// inputs to their ends: they are raw files, and the lines are those of their pages.
pub fn sources_that_have_ended_have_read_raw_files<R: Source>()
    ensures whole { (size : ℕ) (inputs : List (Input R)) (sources news : List (Reading R))
        (lists : List (List ModelLine)) → 48 ≤ size → AreOpened R.remaining size inputs sources
        → AllByRecursion (λ source. source.halt ≡ None) sources → AllPass (PassesLine R.remaining) sources lists news
        → HaveEnded (λ source. first_in source.left) news
        → AllByRecursion (HasEnded R.remaining R.failed) news
        → AreWhole R.remaining R.failed size inputs lists news }
    ensures rising { (low : ℕ) (sources : List (Reading R)) (raws : List RawFile) → AreRawOf sources raws
        → CpusRise low sources → RiseBelow low MAX_CPUS (map own_of raws) }
{}

/// Raw files, each of a later CPU than the one before, have these parts, and nothing else that a file of trace-cmd has.
pub fn raw_files_have_pages_alone()
    ensures parts { (size : ℕ) (raws : List RawFile) → AllByRecursion (IsPlain size) raws
        → ArePartsOf size [] (map file_of raws) (map (part_of size) raws) }
    ensures formats { (size : ℕ) (raws : List RawFile) → AllByRecursion (IsPlain size) raws
        → all_formats (map file_of raws) ≡ [] }
    ensures others { (size : ℕ) (raws : List RawFile) → AllByRecursion (IsPlain size) raws
        → (all_others [] (map file_of raws) ≡ []) × (is_in_any [] (map file_of raws) ≡ false) }
    ensures names { (size : ℕ) (raws : List RawFile) → AllByRecursion (IsPlain size) raws
        → (all_lines tasks_of (map file_of raws) ≡ []) × (all_lines symbols_of (map file_of raws) ≡ []) }
    ensures counters { (size : ℕ) (raws : List RawFile) → AllByRecursion (IsPlain size) raws → (cpu : ℕ)
        → cpu_counters_in [] (map file_of raws) cpu ≡ None }
    ensures cuts { (size : ℕ) (raws : List RawFile) → AllByRecursion (IsPlain size) raws
        → first_cut [] 0 (map file_of raws) ≡ None }
{}

/// What is printed of the pages of such files, one after the other, is what is printed of the captures of all CPUs.
pub fn raw_files_print_as_captures()
    ensures runs { (form : Form) (bounds : ℕ → Option KnownBound) (raws : List RawFile)
        → RiseBelow 0 MAX_CPUS (map own_of raws)
        → listed_runs form bounds (map (runs_from 0 0) (captures_of raws)) ≡ raw_runs form bounds raws }
    ensures unknown { (form : Form) (bounds : ℕ → Option KnownBound) (raws : List RawFile)
        → RiseBelow 0 MAX_CPUS (map own_of raws)
        → all_unknown form bounds 0 (captures_of raws) ≡ raw_unknown form bounds raws }
    ensures damaged { (form : Form) (bounds : ℕ → Option KnownBound) (size : ℕ) (raws : List RawFile)
        → RiseBelow 0 MAX_CPUS (map own_of raws)
        → all_damaged form bounds (map (part_of size) raws) 0 (captures_of raws) ≡ raw_damaged form bounds size raws }
    ensures sums { (form : Form) (selected : Selected) (runs : List (List (ℕ × ℕ))) (cpu : ℕ)
        (captures : List (List Page)) → all_sums form selected (λ at. None) runs cpu captures ≡ [] }
    ensures intact { (raws : List RawFile) → RiseBelow 0 MAX_CPUS (map own_of raws)
        → are_all_intact (captures_of raws) ≡ raw_intact raws }
    ensures pages { (size : ℕ) (raws : List RawFile) → RiseBelow 0 MAX_CPUS (map own_of raws)
        → AllByRecursion (IsRaw size) raws
        → (length (captures_of raws) ≡ MAX_CPUS)
        × AreCpusPages (λ at. None) (map (part_of size) raws) 0 (captures_of raws) }
{}
