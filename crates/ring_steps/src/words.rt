//! Where the words of a ring lie.
ghost use Rattle.std.specs.Prelude.{◌≡◌, ◌≤◌};
ghost use Rattle.trace_model.specs.declared.limits.TheConstants.{MAX_PAGES};
ghost use Rattle.ring_steps.specs.Words.{place_of, word_count};

/// How many words a cache line of 64 bytes has. Each word that is used has a line of its own, so that a thread which
/// stores one takes no other from the other thread.
pub(crate) const LINE_WORDS: usize = 8;

/// A word of a ring.
#[derive(Clone, Copy, Debug)]
pub(crate) enum Word {
    /// The number of begun fills.
    Opened,
    /// The number of closed fills.
    Done,
    /// The reader's wish.
    Wish,
    /// The link of the page of this number.
    Link(u16),
}

impl Word {
    /// Its number among the words of the table.
    #[inline(always)]
    pub(crate) fn place(self) -> usize
        ensures { result ≡ place_of self }
    {
        match self {
            Word::Opened => 0,
            Word::Done => LINE_WORDS,
            Word::Wish => 2 * LINE_WORDS,
            Word::Link(page) => (page as usize + 3) * LINE_WORDS,
        }
    }

    /// How many words the table of a ring of this many pages has: those that are used, each with the rest of its line.
    pub(crate) fn count(pages: usize) -> usize
        requires { pages ≤ MAX_PAGES }
        ensures { result ≡ word_count pages }
    {
        (pages + 4) * LINE_WORDS
    }
}
