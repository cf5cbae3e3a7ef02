//! Laws of the printing of fields, and of the listing of losses.
ghost use Rattle.capture_text.specs.FieldLaws.{NumbersEnd, NumbersReadBack};
ghost use Rattle.capture_text.specs.ListedLaws.{LeavesOut, ListsEachLoss};

/// Two numbers of a kind whose texts are the same are the same.
pub fn numbers_read_back()
    ensures { NumbersReadBack }
{}

/// Where a number ends in a line is seen: by a space, or by the colon before its names.
pub fn numbers_end()
    ensures { NumbersEnd }
{}

/// Each loss of CPUs is listed that are selected and have no record before the selected moments or after them.
pub fn each_loss_is_listed()
    ensures { ListsEachLoss }
{}

/// Losses of CPUs that are selected are left out exactly if a record shows that they aren't of the selected moments.
pub fn other_losses_are_left_out()
    ensures { LeavesOut }
{}
