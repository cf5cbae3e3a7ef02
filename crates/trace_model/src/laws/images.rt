//! Laws over page images.
ghost use Rattle.std.specs.Prelude.{◌≡◌, ℕ, ◌+◌, ◌^◌, ◌<◌, ◌≤◌, ◌⊎◌, List, length};
ghost use Rattle.trace_model.specs.FirstFault.{AreBytes};
ghost use Rattle.trace_model.specs.Image.{Missed, DecodesImageWithin, DecodesImage, ImageCause, FirstImageFault};
ghost use Rattle.trace_model.specs.Image.{image_of, missed_reported};
ghost use Rattle.trace_model.specs.declared.limits.TheConstants.{MAX_IMAGE};
ghost use Rattle.trace_model.specs.Record.{Record};
ghost use Rattle.trace_model.specs.Words.{Decodes};

/// A page image has one reading or one first fault, and never both.
pub fn image_reading_or_fault()
    ensures one { (bytes : List ℕ) → AreBytes bytes
        → ((time size : ℕ) × (missed : Missed) × (records : List Record)
        × DecodesImage bytes time size missed records)
        ⊎ ((fault : ImageCause) × FirstImageFault bytes fault) }
    ensures reading_is_no_fault { (bytes : List ℕ) (time size : ℕ) (missed : Missed)
        (records : List Record) (fault : ImageCause) → DecodesImage bytes time size missed records
        → ¬ FirstImageFault bytes fault }
    ensures one_reading { (bytes : List ℕ) (time other_time size other_size : ℕ)
        (missed other : Missed) (records others : List Record)
        → DecodesImage bytes time size missed records
        → DecodesImage bytes other_time other_size other others
        → (time ≡ other_time) × (size ≡ other_size) × (missed ≡ other) × (records ≡ others) }
    ensures one_fault { (bytes : List ℕ) (fault other : ImageCause)
        → FirstImageFault bytes fault → FirstImageFault bytes other → fault ≡ other }
{}

/// The limit decides only how long an image may be: an image that reads within a limit reads as the same within a
/// larger one, and one that reads within the larger one alone is longer than the smaller. So a page of 4,096 bytes, as
/// most kernels have them, reads as it would under a limit of 4,096.
pub fn image_limit_may_grow()
    ensures reads_within_a_larger_limit { (small large : ℕ) (bytes : List ℕ) (time size : ℕ)
        (missed : Missed) (records : List Record) → small ≤ large
        → DecodesImageWithin small bytes time size missed records
        → DecodesImageWithin large bytes time size missed records }
    ensures others_are_longer { (small large : ℕ) (bytes : List ℕ) (time size : ℕ)
        (missed : Missed) (records : List Record) → length bytes ≤ small
        → DecodesImageWithin large bytes time size missed records
        → DecodesImageWithin small bytes time size missed records }
    ensures one_reading { (limit other_limit : ℕ) (bytes : List ℕ) (time other_time size other_size : ℕ)
        (missed other : Missed) (records others : List Record)
        → DecodesImageWithin limit bytes time size missed records
        → DecodesImageWithin other_limit bytes other_time other_size other others
        → (time ≡ other_time) × (size ≡ other_size) × (missed ≡ other) × (records ≡ others) }
    ensures kernel_pages { (bytes : List ℕ) (time size : ℕ) (missed : Missed) (records : List Record)
        → DecodesImageWithin 4096 bytes time size missed records
        → DecodesImage bytes time size missed records }
{}

/// The image that is written (`image_of`) has as many bytes as its header and its page, and reads as the time, the
/// records and the missed records that it was written for: a count for which the page has no room reads as an unknown
/// one.
pub fn image_reads_back()
    ensures length_is { (time : ℕ) (contents : List ℕ) (missed size : ℕ) → length contents ≤ size
        → length (image_of time contents missed size) ≡ 16 + size }
    ensures read_back { (time : ℕ) (contents : List ℕ) (missed size : ℕ) (records : List Record)
        → time < 2 ^ 64 → missed < 2 ^ 64 → length contents ≤ size → 16 + size ≤ MAX_IMAGE
        → Decodes contents time records
        → DecodesImage (image_of time contents missed size) time (length contents)
        (missed_reported contents missed size) records }
{}
