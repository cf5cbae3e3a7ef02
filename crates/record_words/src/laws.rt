//! The numbers of the format, each by its value.
ghost use Rattle.std.specs.Prelude.{◌≡◌, ◌^◌};
ghost use Rattle.record_words.specs.declared.format.TheConstants.{EXTEND_FROM, LEAST_LENGTH, MAX_PAYLOAD, PADDING};
ghost use Rattle.record_words.specs.declared.format.TheConstants.{SHORT_LIMIT, TIME_EXTEND, TIME_STAMP};

/// The numbers of the format have the values that are stated here; contracts name most of them, so that one that is
/// changed is refused here.
pub fn constants_are()
    ensures padding { PADDING ≡ 29 }
    ensures time_extend { TIME_EXTEND ≡ 30 }
    ensures time_stamp { TIME_STAMP ≡ 31 }
    ensures short_limit { SHORT_LIMIT ≡ 112 }
    ensures least_length { LEAST_LENGTH ≡ 4 }
    ensures extend_from { EXTEND_FROM ≡ 2 ^ 27 }
    ensures max_payload { MAX_PAYLOAD ≡ 2 ^ 30 }
{}
