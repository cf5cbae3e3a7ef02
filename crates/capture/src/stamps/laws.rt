//! What restoring does to stamps, and to pages without any.
ghost use Rattle.std.specs.Prelude.{◌≡◌, ℕ, ◌+◌, ◌-◌, ◌%◌, ◌<◌, ◌≤◌, ◌++◌, false, List};
ghost use Rattle.std.specs.List.{list_any};
ghost use Rattle.trace_model.specs.Words.{Word, is_stamp, joined, word_time_limit, IsJoined};
ghost use Rattle.trace_model.specs.Image.{le64, Commit, commit_word, HasParts};
ghost use Rattle.capture.specs.stamps.Restored.{time_until, restored_words, restored_data, restored_image};

/// The time that a stamp leads to is the first one, from the time before it on, whose low 59 bits are the stamp's: the
/// bits above them are those of the time before, and if that would be earlier, 2^59 is added.
pub fn stamps_lead_to_the_next_time()
    ensures low_bits { (before stamp : ℕ) → stamp < word_time_limit
        → (before + time_until before stamp) % word_time_limit ≡ stamp }
    ensures next { (before stamp : ℕ) → time_until before stamp < word_time_limit }
    ensures high_bits { (before stamp : ℕ) → stamp < word_time_limit
        → before ≤ before - before % word_time_limit + stamp
        → before + time_until before stamp ≡ before - before % word_time_limit + stamp }
    ensures added { (before stamp : ℕ) → stamp < word_time_limit
        → before - before % word_time_limit + stamp < before
        → before + time_until before stamp ≡ before - before % word_time_limit + stamp + word_time_limit }
{}

/// Words without a stamp stay as they are.
pub fn without_stamps_nothing_changes()
    ensures { (time : ℕ) (words : List Word) → list_any is_stamp words ≡ false → restored_words time words ≡ words }
{}

/// Of an image only the data is changed, and of data only the words into which it is cut.
pub fn only_words_are_restored()
    ensures parts { (limit : ℕ) (bytes : List ℕ) (time : ℕ) (commit : Commit) (contents behind : List ℕ)
        → HasParts limit bytes time commit contents behind
        → restored_image bytes ≡ le64 time ++ (le64 (commit_word commit) ++ (restored_data time contents ++ behind)) }
    ensures words { (contents : List ℕ) (time : ℕ) (words : List Word) (rest : List ℕ) → IsJoined contents words rest
        → restored_data time contents ≡ joined (restored_words time words) ++ rest }
{}
