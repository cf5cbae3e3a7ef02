//! What is read of pages while they are written is what is read of them at once.
ghost use Rattle.std.specs.Prelude.{◌≡◌, ℕ, List, flat_map, map};
ghost use Rattle.page_numbers.specs.Parcels.{entries_of_parcel};
ghost use Rattle.capture.specs.Pages.{Page, parcels_from, unknown_from, damages_from, end_from};
ghost use Rattle.capture.specs.Captures.{AreDamages};
ghost use Rattle.live_listing.specs.Pages.{nothing_reached, reached_by, records_of_pages, numbered, AreBetween};
ghost use Rattle.live_listing.specs.Pages.{unknown_before, damaged_before};
ghost use Rattle.line_follower.specs.declared.lines.Said.{Said};
ghost use Rattle.live_listing.specs.declared.pages.Content.{Content};
ghost use Rattle.live_listing.specs.Live.{Live, Happening, Run, GivesRest, nothing_live};
ghost use Rattle.live_listing.specs.Readings.{IsReadingOf};

/// Whatever happens with inputs, what is given is that of a reading as it is meant, whose lines of each CPU are those
/// of the records of its pages.
pub fn what_happens_is_followed()
    ensures { (happened : List Happening) (given rest : List (Said Content)) (live last : Live)
        → Run nothing_live happened given live → GivesRest live rest last
        → IsReadingOf happened given rest last.cpus }
{}

/// The records of a CPU's pages have the numbers, moments and bytes that they have in a capture of these pages.
pub fn records_are_those_of_a_capture()
    ensures { (cpu : ℕ) (pages : List Page) → map numbered (records_of_pages nothing_reached pages)
        ≡ flat_map entries_of_parcel (parcels_from cpu 0 0 pages) }
{}

/// The losses of unknown number are those of the capture.
pub fn unknown_losses_are_those_of_a_capture()
    ensures { (pages : List Page) → unknown_before (records_of_pages nothing_reached pages)
        (reached_by nothing_reached pages).lost ≡ unknown_from 0 pages }
{}

/// The damaged pages are those of the capture.
pub fn damaged_pages_are_those_of_a_capture()
    ensures { (pages : List Page) → AreDamages (damaged_before (records_of_pages nothing_reached pages)
        (reached_by nothing_reached pages).lost) (damages_from 0 0 pages) }
{}

/// The numbers that are missing are those that no record has, up to the capture's end.
pub fn gaps_are_between_records()
    ensures between { (pages : List Page) → AreBetween 0 (records_of_pages nothing_reached pages)
        (reached_by nothing_reached pages).lost }
    ensures end { (pages : List Page) → (reached_by nothing_reached pages).lost.until ≡ end_from 0 pages }
{}
