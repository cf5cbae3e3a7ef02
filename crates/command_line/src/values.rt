//! How the values of options are read that say which records of a listing are printed.
ghost use Rattle.std.specs.Prelude.{◌≡◌, option_map};
ghost use Rattle.command_line.specs.ListWords.{is_in_order as is_in_order_of, moment_in as moment_in_text};
ghost use Rattle.command_line.specs.ListWords.{path_in as path_in_text, pattern_in as pattern_in_text};

use crate::words::is_number;

/// The last moment that there can be.
pub const MAX_MOMENT: u64 = 18446744073709551615;

/// The most bytes of a pattern of events.
pub const MAX_PATTERN: usize = 256;

/// The moment that a text is, in decimal digits.
pub(crate) fn moment_in(text: &str) -> Option<u64>
    ensures { result ≡ moment_in_text text.now }
{
    if !is_number(text) {
        return None;
    }
    match text.parse::<u64>() {
        Ok(moment) => Some(moment),
        Err(_) => None,
    }
}

/// Whether the first moment isn't after the last one, if both are there.
pub(crate) fn is_in_order(since: Option<u64>, until: Option<u64>) -> bool
    ensures { result ≡ is_in_order_of since until }
{
    match (since, until) {
        (Some(since), Some(until)) => since <= until,
        _ => true,
    }
}

/// The pattern of events that a text is.
pub(crate) fn pattern_in(text: &str) -> Option<&str>
    ensures { option_map (λ t. t.now) result ≡ pattern_in_text text.now }
{
    if text.is_empty() || text.len() > MAX_PATTERN {
        None
    } else {
        Some(text)
    }
}

/// The path that a text is.
pub(crate) fn path_in(text: &str) -> Option<&str>
    ensures { option_map (λ t. t.now) result ≡ path_in_text text.now }
{
    if text.is_empty() { None } else { Some(text) }
}
