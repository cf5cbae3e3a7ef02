//! A text, line by line.
ghost use Rattle.std.specs.Prelude.{◌≡◌, ◌+◌, ◌-◌, ◌^◌, ◌<◌, ◌==◌, ⊤, [], ◌∷◌, length, position, MatchOption};
ghost use Rattle.std.specs.List.{slice_split};
ghost use Rattle.text_model.specs.Text.{lines_of};
ghost use Rattle.text_model.specs.ScriptLines.{is_significant};
ghost use Rattle.text_model.specs.HeaderReading.{significant_lines_after, end_line_after};

use memchr::memchr;

/// The index of the first line feed, if there is one.
fn line_end(text: &[u8]) -> Option<usize>
    ensures { result ≡ position (λ b. b == 10) text.now }
{
    memchr(b'\n', text)
}

/// The text before the first line feed, and the text after it, if there is one.
fn line_cut(text: &[u8]) -> (&[u8], Option<&[u8]>)
    ensures parts { MatchOption result.1
        (slice_split (λ b. b == 10) text.now ≡ result.0.now ∷ [])
        (λ rest. slice_split (λ b. b == 10) text.now ≡ result.0.now ∷ slice_split (λ b. b == 10) rest.now) }
    ensures whole { MatchOption result.1 (result.0.now ≡ text.now) (λ rest. ⊤) }
    ensures len { MatchOption result.1 ⊤ (λ rest. length rest.now < length text.now) }
{
    match line_end(text) {
        Some(at) => (&text[..at], Some(&text[at + 1..])),
        None => (text, None),
    }
}

/// The index of the first space, if there is one.
fn space_at(line: &[u8]) -> Option<usize>
    ensures { result ≡ position (λ b. b == 32) line.now }
{
    line.iter().position(|b| *b == b' ')
}

/// The text before the first space, and the text after it, if there is one.
pub(crate) fn field_cut(line: &[u8]) -> (&[u8], Option<&[u8]>)
    ensures parts { MatchOption result.1
        (slice_split (λ b. b == 32) line.now ≡ result.0.now ∷ [])
        (λ rest. slice_split (λ b. b == 32) line.now ≡ result.0.now ∷ slice_split (λ b. b == 32) rest.now) }
    ensures len { MatchOption result.1 ⊤ (λ rest. length rest.now < length line.now) }
{
    match space_at(line) {
        Some(at) => (&line[..at], Some(&line[at + 1..])),
        None => (line, None),
    }
}

/// A line of a text, without its line feed.
#[derive(Clone, Copy)]
pub(crate) struct NumberedLine<'a> {
    /// Its number among all lines of the text, from 1.
    pub(crate) number: u64,
    /// Its bytes.
    pub(crate) text: &'a [u8],
}

/// The lines of a text that are still to be read.
#[derive(Clone, Copy)]
pub(crate) struct Lines<'a> {
    /// The text from the next line on.
    pub(crate) rest: &'a [u8],
    /// How many lines were passed before it.
    pub(crate) passed: u64,
    ghost bounded: { passed + length rest.now < 2 ^ 63 },
}

/// Whether the line is significant: it is neither empty nor begins with `#`.
fn is_significant(line: &[u8]) -> bool
    ensures { result ≡ is_significant line.now }
{
    match line {
        [] => false,
        [first, ..] => *first != b'#',
    }
}

impl<'a> Lines<'a> {
    /// All lines of a text.
    pub(crate) fn of(text: &'a [u8]) -> Lines<'a>
        ensures rest { result.rest.now ≡ text.now }
        ensures passed { result.passed ≡ 0 }
    {
        Lines {
            rest: text,
            passed: 0,
        }
    }

    /// The next line.
    fn next_line(&mut self) -> Option<NumberedLine<'a>>
        ensures lines { MatchOption result (lines_of self.old.rest.now ≡ []) (λ line.
            lines_of self.old.rest.now ≡ line.text.now ∷ lines_of self.new.rest.now) }
        ensures number { MatchOption result
            ((self.new.passed ≡ self.old.passed) × (self.new.rest.now ≡ self.old.rest.now)) (λ line.
            (line.number ≡ self.old.passed + 1) × (self.new.passed ≡ self.old.passed + 1)) }
        ensures shorter { MatchOption result ⊤ (λ line.
            length self.new.rest.now < length self.old.rest.now) }
    {
        if self.rest.is_empty() {
            return None;
        }
        let (text, rest) = line_cut(self.rest);
        self.rest = rest.unwrap_or(&[]);
        self.passed += 1;
        Some(NumberedLine {
            number: self.passed,
            text,
        })
    }

    /// Passes the next line: this is the text after it.
    #[inline(always)]
    pub(crate) fn pass_to(&mut self, rest: &'a [u8])
        requires { length rest.now < length self.old.rest.now }
        ensures rest { self.new.rest.now ≡ rest.now }
        ensures passed { self.new.passed ≡ self.old.passed + 1 }
    {
        self.rest = rest;
        self.passed += 1;
    }

    /// The next significant line.
    pub(crate) fn next_significant(&mut self) -> Option<NumberedLine<'a>>
        ensures left { MatchOption result
            (significant_lines_after self.old.passed self.old.rest.now ≡ [])
            (λ line. significant_lines_after self.old.passed self.old.rest.now
            ≡ (line.number, line.text.now) ∷ significant_lines_after self.new.passed self.new.rest.now) }
        ensures end { end_line_after self.new.passed self.new.rest.now
            ≡ end_line_after self.old.passed self.old.rest.now }
        ensures number { MatchOption result ⊤ (λ line. line.number ≡ self.new.passed) }
        ensures later { MatchOption result ⊤ (λ line. self.old.passed < self.new.passed) }
        ensures passed { MatchOption result
            (end_line_after self.new.passed self.new.rest.now ≡ self.new.passed + 1) (λ line. ⊤) }
        ensures shorter { MatchOption result ⊤ (λ line.
            length self.new.rest.now < length self.old.rest.now) }
    {
        while let Some(line) = self.next_line() {
            if is_significant(line.text) {
                return Some(line);
            }
        }
        None
    }
}
