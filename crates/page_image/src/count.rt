//! The records of a page's data, counted.
ghost use Rattle.std.specs.Prelude.{◌*◌, ◌≤◌, IfOk, IfErr, length};
ghost use Rattle.page_image.specs.Counting.{IsCounted, IsFirstWordFault};

use crate::walk::{start, step_over_word};
use record_words::WordFault;

/// How many records the data of a page with this time holds, or its first fault.
pub(crate) fn count_records(data: &[u8], time: u64) -> Result<u64, WordFault>
    ensures reads { IfOk result (λ count. IsCounted «data».now time count) }
    ensures few { IfOk result (λ count. 4 * count ≤ length «data».now) }
    ensures fault { IfErr result (λ f. IsFirstWordFault «data».now time f) }
{
    let mut reached = start(time);
    while reached.at < data.len() {
        let Some(passed) = step_over_word(data, reached)? else {
            return Ok(reached.count);
        };
        reached = passed.behind;
    }
    Ok(reached.count)
}
