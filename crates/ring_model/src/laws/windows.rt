//! Laws of a ring's window: how the counts of fills move, and which fills are taken or lost.
ghost use Rattle.ring_model.specs.WindowLaws.{ClosesNeedNoFrame, CountsRise, LossesNeedAFullRing, LostAreClosed};
ghost use Rattle.ring_model.specs.WindowLaws.{NoneIsTakenAndLost, NothingHappens, OneWindowEvent, PassedAreTakenOrLost};
ghost use Rattle.ring_model.specs.WindowLaws.{RunsExtendEvents, RunsMoveWindow, StepsMoveWindow, TakenAreClosed};

/// Every step is one step of the window, the one that the history and the taken pages show, or leaves the window and
/// what was taken as they were. So no fill is both taken and lost, and none is lost but a closed one, in a full ring.
pub fn steps_move_window()
    ensures window { StepsMoveWindow }
    ensures one { OneWindowEvent }
    ensures none { NothingHappens }
{}

/// Every run from a new ring is a run of its window, which states each event of the frames and each fill that the
/// reader took; a longer run continues a shorter one, and the counts only rise.
pub fn runs_move_window()
    ensures runs { RunsMoveWindow }
    ensures extends { RunsExtendEvents }
    ensures rises { CountsRise }
{}

/// In a run of the window each fill below the head was taken or lost, and never both; either way it had been closed,
/// and one that was lost was lost in a full ring.
pub fn passed_fills_are_taken_or_lost()
    ensures passed { PassedAreTakenOrLost }
    ensures apart { NoneIsTakenAndLost }
    ensures taken { TakenAreClosed }
    ensures lost { LostAreClosed }
{}

/// The head moves by a take of it, or in a full ring; and a fill is closed only if each push has its leave.
pub fn fills_are_lost_in_a_full_ring()
    ensures losses { LossesNeedAFullRing }
    ensures closes { ClosesNeedNoFrame }
{}
