//! Laws of a ring's two seats, the writer's and the reader's: what each reads and changes.
ghost use Rattle.ring_model.specs.SeatLaws.{PrivateCommutes, PrivateLeavesOtherPages, PrivateTouchesNoWord};
ghost use Rattle.ring_model.specs.SeatLaws.{ReaderLeavesOpenPages, ReaderLeavesWriter, ReaderReadsNoWriter};
ghost use Rattle.ring_model.specs.SeatLaws.{WriterLeavesReader, WriterReadsNoReader};
ghost use Rattle.ring_model.specs.SeenLinks.{FramesHaveSeenLinks};
ghost use Rattle.ring_model.specs.WriterRanks.{ClaimsFailOnceTheHeadMoved};

/// A step of the writer reads nothing of the reader's part and leaves it as it is; a step of the reader reads nothing
/// of the writer's part and leaves it as it is, with the words that the writer alone stores and the pages that it
/// holds. So two threads may have the two parts.
pub fn seats_are_apart()
    ensures writer_reads { WriterReadsNoReader }
    ensures writer_leaves { WriterLeavesReader }
    ensures reader_reads { ReaderReadsNoWriter }
    ensures reader_leaves { ReaderLeavesWriter }
    ensures pages { ReaderLeavesOpenPages }
{}

/// A private step of the writer touches no word of the ring, and no page but those that the writer holds; so private
/// steps and a step of the reader lead to one state, whichever comes first, with the same answers.
pub fn private_steps_commute()
    ensures words { PrivateTouchesNoWord }
    ensures pages { PrivateLeavesOtherPages }
    ensures commute { PrivateCommutes }
{}

/// The page that a frame has seen in the link that it is about to claim, or to mark, fits a word, if the ring has at
/// most `MAX_PAGES` pages. A head that it is about to claim has its HEADER while it is the head; so a claim that fails
/// shows that the head was moved on.
pub fn frames_have_seen_links()
    ensures seen { FramesHaveSeenLinks }
    ensures claims { ClaimsFailOnceTheHeadMoved }
{}
