//! What holds of a writer's stack after any list of calls.
ghost use Rattle.nested_writer.specs.Runs.{RunsHoldLastFills};

/// After any list of calls, refused ones among them, the open pages hold the last fills of the reserved records of a
/// history, a payload that is being written included, and that history is packed.
pub fn open_pages_hold_last_fills()
    ensures { RunsHoldLastFills }
{}
