//! Laws over readings: whatever happens, what is given is what is meant.
ghost use Rattle.std.specs.Prelude.{ℕ, List, [], ◌++◌, ◌↔◌, All, IsTrue};
ghost use Rattle.trace_model.specs.Listing.{IsBefore};
ghost use Rattle.line_follower.specs.declared.lines.Place.{Place};
ghost use Rattle.line_follower.specs.declared.lines.Said.{Said};
ghost use Rattle.line_follower.specs.Order.{is_before, place_line, AreInOrder};
ghost use Rattle.line_follower.specs.Known.{Known, Event, known_after, IsFinal};
ghost use Rattle.line_follower.specs.Runs.{IsReading, IsFollowed, in_order_of, given_in, events_of, AreInTime};
ghost use Rattle.line_follower.specs.Runs.{IsNotLate};

/// Of every sequence of pages, quiet rounds and ends: after each of them exactly that is given which is final by then,
/// in order; in the end each line that was read is given once, and nothing else; and a line is late exactly if it is
/// before one that was given before it.
pub fn whatever_happens_is_followed<T>()
    ensures { (count : ℕ) (steps : List (Event T × List (Said T))) (rest : List (Said T)) →
        IsReading count steps rest → IsFollowed count steps rest }
{}

/// No line is late if each comes in time: not before the bound of its CPU, which is open, nor before a line that was
/// read of the CPU.
pub fn none_is_late_in_time<T>()
    ensures { (count : ℕ) (steps : List (Event T × List (Said T))) (rest : List (Said T)) →
        IsReading count steps rest → AreInTime count [] (events_of steps) →
        All IsNotLate (given_in steps ++ rest) }
{}

/// The order of lines is that of a listing.
pub fn the_order_is_that_of_a_listing()
    ensures { (a b : Place) → IsTrue (is_before a b) ↔ IsBefore (place_line a) (place_line b) }
{}

/// The lines that aren't late are in order.
pub fn what_is_not_late_is_in_order<T>()
    ensures { (count : ℕ) (steps : List (Event T × List (Said T))) (rest : List (Said T)) →
        IsFollowed count steps rest → AreInOrder (in_order_of (given_in steps ++ rest)) }
{}

/// What is final stays final, whatever happens.
pub fn what_is_final_stays_final<T>()
    ensures { (known : Known) (event : Event T) (place : Place) →
        IsFinal known.cpus place → IsFinal (known_after known event).cpus place }
{}
