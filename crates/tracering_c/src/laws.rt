//! The numbers of answers, each by its value.
ghost use Rattle.std.specs.Prelude.{◌≡◌, pos, negsuc};
ghost use Rattle.tracering_c.specs.declared.codes.TheConstants.{ABSENT, BAD_COUNT, BAD_CPU, BAD_IMAGE_SIZE};
ghost use Rattle.tracering_c.specs.declared.codes.TheConstants.{BAD_LENGTH, BAD_SIZE, CLASH, CROWDED, CUT, DIFFERENT};
ghost use Rattle.tracering_c.specs.declared.codes.TheConstants.{DONE, EMPTY, END, IN_USE, KNOWN, LATE_MOMENT};
ghost use Rattle.tracering_c.specs.declared.codes.TheConstants.{MISSED_DIFFERS, MISSED_TOO_MANY, MOVING};
ghost use Rattle.tracering_c.specs.declared.codes.TheConstants.{NOTHING_CLOSED, NOT_AT_REST, NOT_RESERVED, NO_FRAME};
ghost use Rattle.tracering_c.specs.declared.codes.TheConstants.{NO_MEMORY, NO_ROOM, NUMBER_OVERFLOW, RESERVED};
ghost use Rattle.tracering_c.specs.declared.codes.TheConstants.{TAKEN_AND_MISSING, TIME_OVERFLOW, TOO_DEEP, TOO_LONG};
ghost use Rattle.tracering_c.specs.declared.codes.TheConstants.{TOO_SHORT, UNREAD, WORN};
ghost use Rattle.tracering_c.specs.declared.fleet_codes.TheConstants.{BAD_KIND, BAD_MARK, BAD_PIECE_LENGTH, BAD_SUM};
ghost use Rattle.tracering_c.specs.declared.fleet_codes.TheConstants.{BAD_VERSION, BEYOND_END, FORGOTTEN, LOOSE};
ghost use Rattle.tracering_c.specs.declared.fleet_codes.TheConstants.{NOT_FINAL, NOT_PACKED, OTHER_END, PIECE_CUT};

/// Each answer has the number that is stated here, which is its number in `c/include/tracering.h`; contracts cite it by
/// name.
pub fn answers_are()
    ensures nothing_closed { NOTHING_CLOSED ≡ negsuc 3 }
    ensures different { DIFFERENT ≡ negsuc 2 }
    ensures known { KNOWN ≡ negsuc 1 }
    ensures reserved { RESERVED ≡ negsuc 0 }
    ensures done { DONE ≡ pos 0 }
    ensures too_deep { TOO_DEEP ≡ pos 1 }
    ensures too_long { TOO_LONG ≡ pos 2 }
    ensures late_moment { LATE_MOMENT ≡ pos 3 }
    ensures crowded { CROWDED ≡ pos 4 }
    ensures worn { WORN ≡ pos 5 }
    ensures no_frame { NO_FRAME ≡ pos 6 }
    ensures not_reserved { NOT_RESERVED ≡ pos 7 }
    ensures absent { ABSENT ≡ pos 8 }
    ensures in_use { IN_USE ≡ pos 9 }
    ensures no_memory { NO_MEMORY ≡ pos 12 }
    ensures bad_size { BAD_SIZE ≡ pos 13 }
    ensures bad_cpu { BAD_CPU ≡ pos 14 }
    ensures empty { EMPTY ≡ pos 15 }
    ensures moving { MOVING ≡ pos 16 }
    ensures no_room { NO_ROOM ≡ pos 17 }
    ensures not_at_rest { NOT_AT_REST ≡ pos 18 }
    ensures unread { UNREAD ≡ pos 19 }
    ensures too_short { TOO_SHORT ≡ pos 20 }
    ensures bad_image_size { BAD_IMAGE_SIZE ≡ pos 21 }
    ensures bad_count { BAD_COUNT ≡ pos 22 }
    ensures cut { CUT ≡ pos 23 }
    ensures bad_length { BAD_LENGTH ≡ pos 24 }
    ensures time_overflow { TIME_OVERFLOW ≡ pos 25 }
    ensures number_overflow { NUMBER_OVERFLOW ≡ pos 26 }
    ensures missed_too_many { MISSED_TOO_MANY ≡ pos 27 }
    ensures missed_differs { MISSED_DIFFERS ≡ pos 28 }
    ensures clash { CLASH ≡ pos 29 }
    ensures taken_and_missing { TAKEN_AND_MISSING ≡ pos 30 }
    ensures end { END ≡ pos 31 }
    ensures forgotten { FORGOTTEN ≡ negsuc 4 }
    ensures not_packed { NOT_PACKED ≡ pos 33 }
    ensures piece_cut { PIECE_CUT ≡ pos 34 }
    ensures bad_version { BAD_VERSION ≡ pos 35 }
    ensures bad_piece_length { BAD_PIECE_LENGTH ≡ pos 36 }
    ensures bad_sum { BAD_SUM ≡ pos 37 }
    ensures bad_kind { BAD_KIND ≡ pos 38 }
    ensures loose { LOOSE ≡ pos 39 }
    ensures bad_mark { BAD_MARK ≡ pos 40 }
    ensures beyond_end { BEYOND_END ≡ pos 41 }
    ensures other_end { OTHER_END ≡ pos 42 }
    ensures not_final { NOT_FINAL ≡ pos 43 }
{}
