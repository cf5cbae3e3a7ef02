//! Runs of numbers that go into a caller's array.
ghost use Rattle.std.specs.Prelude.{◌≡◌, ◌≤◌, ◌<◌, length, slice_set};

/// A run of numbers, by its first and its last.
#[repr(C)]
#[derive(Clone, Copy, Debug, PartialEq, Eq)]
pub struct Run {
    /// The lowest number of the run.
    pub first: u64,
    /// The highest one, which is in the run too.
    pub last: u64,
}

/// Puts a run to this place, if there is one.
pub(crate) fn put_run(out: &mut [Run], at: usize, run: Run)
    ensures put { at < length out.old → out.new ≡ slice_set out.old at run }
    ensures past { length out.old ≤ at → out.new ≡ out.old }
{
    if at < out.len() {
        out[at] = run;
    }
}
