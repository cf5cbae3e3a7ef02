//! Laws over what a replay makes of a CPU's writer lines.
ghost use Rattle.line_model.specs.ReplayedLines.{LineRunsAreCalls, ReplayCommitsWholeLines, ReplayMakesLines};
ghost use Rattle.line_model.specs.ReplayedLines.{WorldsMakeLines};

/// What a line of a replay does with its ring are, for the ring's writer, the calls of that line.
pub fn line_runs_are_calls()
    ensures calls { LineRunsAreCalls }
{}

/// In the world of a script within its limits, after any of its lines and after all of them, the history of each CPU's
/// ring is begun by the lines of its writer, and made by them if no frame is on the stack.
pub fn replays_make_lines()
    ensures behind { ReplayMakesLines }
    ensures whole { WorldsMakeLines }
{}

/// In a replay a CPU with `w` and `c` lines alone, at most as many as there are numbers left for fills, commits exactly
/// the records of its `w` lines that are neither too long nor too late, in order.
pub fn replays_commit_whole_lines()
    ensures records { ReplayCommitsWholeLines }
{}
