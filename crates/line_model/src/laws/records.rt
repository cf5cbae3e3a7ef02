//! Laws over the records that lines commit.
ghost use Rattle.line_model.specs.WriterHistories.{WritersCommitWholeLines, WritersFormHistories};
ghost use Rattle.line_model.specs.WrittenRecords.{FillsAreFew, LinesFromRestCommit, WholeLinesCommit};
ghost use Rattle.line_model.specs.WrittenRecords.{WholeLinesHaveCommitted};

/// In a run of the window whose history is packed, at most one fill more is begun than there are records: each fill but
/// the last has one.
pub fn fills_are_few()
    ensures few { FillsAreFew }
{}

/// In a packed history that keeps the discipline of the stack, a `w` or `c` line that begins with no frame on the stack
/// and all fills but the tail closed ends so too, and commits exactly its record: none for `c`, nor if the record is
/// too long or too late, nor if records have taken the numbers of fills.
pub fn lines_from_rest_commit()
    ensures one { LinesFromRestCommit }
{}

/// With `w` and `c` lines alone, at most as many as there are numbers left for fills, a packed history of these lines
/// that keeps the discipline of the stack commits exactly the records of the `w` lines that are neither too long nor
/// too late, in order, moments raised.
pub fn whole_lines_commit()
    ensures all { WholeLinesCommit }
    ensures so_far { WholeLinesHaveCommitted }
{}

/// The history that a writer makes by the calls of its lines keeps the discipline of the stack and is packed. So a
/// writer with `w` and `c` lines alone, at most as many as there are numbers left for fills, commits exactly the
/// records of its `w` lines that are neither too long nor too late, in order.
pub fn writers_commit_whole_lines()
    ensures formed { WritersFormHistories }
    ensures records { WritersCommitWholeLines }
{}
