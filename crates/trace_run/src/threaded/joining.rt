//! Results of threads, joined one by one.
ghost use Rattle.std.specs.Prelude.{IfOk, IfErr};
ghost use Rattle.trace_run.specs.threaded.Joining.{IsOneMore, IsFirstFault};

use trace_script::ReplayFault;

/// One more after those that were joined so far, if none of them met a fault; else the first fault.
pub(crate) fn with_next<T: Drop>(
    joined: Result<Vec<T>, ReplayFault>,
    next: Result<T, ReplayFault>,
) -> Result<Vec<T>, ReplayFault>
    ensures more { IfOk result (IsOneMore joined next) }
    ensures fault { IfErr result (IsFirstFault joined next) }
{
    let mut all = joined?;
    let one = next?;
    let Ok(()) = all.push(one) else {
        return Err(ReplayFault::NoMemory);
    };
    Ok(all)
}
