//! Pieces of a text of C.
ghost use Rattle.std.specs.Prelude.{◌≡◌, ◌+◌, ◌==◌, ◌<◌, not, length, position, IfSome};
ghost use Rattle.std.specs.List.{count_by, list_all, suffix_len};
ghost use Rattle.event_fields.specs.Texts.{is_name_byte};
ghost use Rattle.kernel_names.specs.Pieces.{is_opening, is_closing, is_separator, unopened, unseparated};
ghost use Rattle.kernel_names.specs.Pieces.{front_of_closing, closing_of, front_of_opening, opening_of};
ghost use Rattle.kernel_names.specs.Pieces.{front_of_word, last_word};

use event_fields::texts::is_name_byte;

/// Whether this is an opening bracket or a blank.
fn is_opening(byte: u8) -> bool
    ensures { result ≡ is_opening byte }
{
    byte == b'(' || byte == b' '
}

/// Whether this is a closing bracket or a blank.
fn is_closing(byte: u8) -> bool
    ensures { result ≡ is_closing byte }
{
    byte == b')' || byte == b' '
}

/// Whether this is a comma or a blank.
fn is_separator(byte: u8) -> bool
    ensures { result ≡ is_separator byte }
{
    byte == b',' || byte == b' '
}

/// The position of the first byte that is neither an opening bracket nor a blank.
fn opened_at(text: &[u8]) -> Option<usize>
    ensures place { result ≡ position (λ b. not (is_opening b)) text.now }
    ensures within { IfSome result (λ at. at < length text.now) }
{
    text.iter().position(|byte| !is_opening(*byte))
}

/// The position of the first byte that is neither a comma nor a blank.
fn separated_at(text: &[u8]) -> Option<usize>
    ensures place { result ≡ position (λ b. not (is_separator b)) text.now }
    ensures within { IfSome result (λ at. at < length text.now) }
{
    text.iter().position(|byte| !is_separator(*byte))
}

/// What is after the opening brackets and blanks at the front.
#[tactic(auto, unfolding(crate::specs::Pieces::unopened))]
pub(crate) fn unopened(text: &[u8]) -> &[u8]
    ensures { result.now ≡ unopened text.now }
{
    match opened_at(text) {
        Some(at) => &text[at..],
        None => &[],
    }
}

/// What is after the commas and blanks at the front.
#[tactic(auto, unfolding(crate::specs::Pieces::unseparated))]
pub(crate) fn unseparated(text: &[u8]) -> &[u8]
    ensures { result.now ≡ unseparated text.now }
{
    match separated_at(text) {
        Some(at) => &text[at..],
        None => &[],
    }
}

/// Where the closing brackets and blanks at the end begin.
fn closing_start(text: &[u8]) -> usize
    ensures { result + suffix_len is_closing text.now ≡ length text.now }
{
    let mut start = text.len();
    while start > 0 && is_closing(text[start - 1]) {
        start -= 1;
    }
    start
}

/// What is before the closing brackets and blanks at the end, and these.
pub(crate) fn cut_closing(text: &[u8]) -> (&[u8], &[u8])
    ensures front { result.0.now ≡ front_of_closing text.now }
    ensures closing { result.1.now ≡ closing_of text.now }
{
    let start = closing_start(text);
    (&text[..start], &text[start..])
}

/// Where the letters, digits and `_` at the end begin.
fn word_start(text: &[u8]) -> usize
    ensures { result + suffix_len is_name_byte text.now ≡ length text.now }
{
    let mut start = text.len();
    while start > 0 && is_name_byte(text[start - 1]) {
        start -= 1;
    }
    start
}

/// What is before the letters, digits and `_` at the end, and these.
pub(crate) fn cut_word(text: &[u8]) -> (&[u8], &[u8])
    ensures front { result.0.now ≡ front_of_word text.now }
    ensures word { result.1.now ≡ last_word text.now }
{
    let start = word_start(text);
    (&text[..start], &text[start..])
}

/// How many bytes of a text are this one.
pub(crate) fn count_of(text: &[u8], byte: u8) -> usize
    ensures { result ≡ count_by (λ b. b == byte) text.now }
{
    let mut count = 0;
    for other in text {
        if *other == byte {
            count += 1;
        }
    }
    count
}

/// Whether all bytes are opening brackets or blanks.
pub(crate) fn are_opening(text: &[u8]) -> bool
    ensures { result ≡ list_all is_opening text.now }
{
    for byte in text {
        if !is_opening(*byte) {
            return false;
        }
    }
    true
}

/// Whether all bytes are closing brackets or blanks.
pub(crate) fn are_closing(text: &[u8]) -> bool
    ensures { result ≡ list_all is_closing text.now }
{
    for byte in text {
        if !is_closing(*byte) {
            return false;
        }
    }
    true
}

/// Whether all bytes are blanks.
pub(crate) fn are_blank(text: &[u8]) -> bool
    ensures { result ≡ list_all (λ b. b == 32) text.now }
{
    for byte in text {
        if *byte != b' ' {
            return false;
        }
    }
    true
}

/// Where the opening brackets and blanks at the end begin.
fn opening_start(text: &[u8]) -> usize
    ensures { result + suffix_len is_opening text.now ≡ length text.now }
{
    let mut start = text.len();
    while start > 0 && is_opening(text[start - 1]) {
        start -= 1;
    }
    start
}

/// What is before the opening brackets and blanks at the end, and these.
pub(crate) fn cut_opening(text: &[u8]) -> (&[u8], &[u8])
    ensures front { result.0.now ≡ front_of_opening text.now }
    ensures opening { result.1.now ≡ opening_of text.now }
{
    let start = opening_start(text);
    (&text[..start], &text[start..])
}
