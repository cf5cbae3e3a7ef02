//! A page of a given body.
use crate::body::Body;
use crate::page::Page;
use trace_model::{FillNo, RecordNo};

impl Page {
    ghost use Rattle.std.specs.Prelude.{◌≡◌, ◌*◌, ◌≤◌, length, take};
    ghost use Rattle.trace_model.specs.declared.limits.TheConstants.{MAX_SIZE};

    /// The page of this time whose data is the first `end` bytes of the body, with `count` records. Its first
    /// number and its fill are 0.
    pub(crate) fn of_body(body: Body, time: u64, end: usize, count: u64) -> Page
        requires end { end ≤ length body }
        requires limit { length body ≤ MAX_SIZE }
        requires few { 4 * count ≤ end }
        ensures { result ≡ record {
          time = time;
          first = 0;
          count = count;
          fill = 0;
          size = length body;
          bytes = take end body;
        } }
    {
        Page {
            body,
            time,
            end,
            first: RecordNo(0),
            count,
            fill: FillNo(0),
        }
    }
}
