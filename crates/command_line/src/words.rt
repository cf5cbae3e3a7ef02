//! How the words of `collect` and `recover` are read.
ghost use Rattle.std.specs.Prelude.{◌≡◌, None, MatchOption, option_map};
ghost use Rattle.std.specs.List.{position as first_place};
ghost use Rattle.command_line.specs.FileWords.{IsSplitAt, file_word, is_equals, is_input as is_input_path};
ghost use Rattle.command_line.specs.FileWords.{is_number as is_number_text, number_in as number_in_text, number_word};
ghost use Rattle.command_line.specs.Calls.{file_seen};

use crate::call::CpuFile;
use trace_model::{CpuId, MAX_CPUS};

/// The bytes of a page if `--page` isn't given.
pub const DEFAULT_PAGE: u32 = 4096;

/// The fewest bytes of a page.
pub const MIN_PAGE: u32 = 48;

/// The most bytes of a page.
pub const MAX_PAGE: u32 = 65552;

/// The milliseconds of a round if `--round` isn't given.
pub const DEFAULT_ROUND: u32 = 500;

/// The fewest milliseconds of a round.
pub const MIN_ROUND: u32 = 1;

/// The most milliseconds of a round.
pub const MAX_ROUND: u32 = 60000;

/// The most files of regions.
pub const MAX_FILES: usize = 256;

// Whether a text has digits alone, and one at least.
pub(crate) fn is_number(text: &str) -> bool
    ensures { result ≡ is_number_text text.now }
{
    !text.is_empty() && text.as_bytes().iter().all(|byte| byte.is_ascii_digit())
}

// The number that a text is, if it is one from `low` to `high`.
pub(crate) fn number_in(low: u32, high: u32, text: &str) -> Option<u32>
    ensures { result ≡ number_in_text low high text.now }
{
    if !is_number(text) {
        return None;
    }
    match text.parse::<u32>() {
        Ok(number) if low <= number && number <= high => Some(number),
        Ok(_) => None,
        Err(_) => None,
    }
}

// What is before the first `=` and after it.
fn split_at_equals(word: &str) -> Option<(&str, &str)>
    ensures { MatchOption result (first_place is_equals word.now ≡ None)
        (λ parts. IsSplitAt is_equals word.now parts.0.now parts.1.now) }
{
    word.split_once('=')
}

// A path whose CPU is that of its position.
fn path_at<'a>(position: u32, path: &'a str) -> CpuFile<'a>
    ensures { file_seen result ≡ (position, path.now) }
{
    CpuFile {
        cpu: CpuId(position),
        path,
    }
}

/// The CPU and the path of a FILE at a position among the FILEs.
pub(crate) fn cpu_file<'a>(position: u32, word: &'a str) -> Option<CpuFile<'a>>
    ensures { option_map file_seen result ≡ file_word position word.now }
{
    match split_at_equals(word) {
        Some((cpu, path)) if is_number(cpu) => {
            let cpu = CpuId(number_in(0, MAX_CPUS - 1, cpu)?);
            Some(CpuFile { cpu, path })
        }
        Some(_) => Some(path_at(position, word)),
        None => Some(path_at(position, word)),
    }
}

/// Whether a path is that of standard input, `-`.
pub(crate) fn is_input(path: &str) -> bool
    ensures { result ≡ is_input_path path.now }
{
    matches!(path.as_bytes(), [b'-'])
}

/// The number of an option, from `low` to `high`, by what the option says, if it is given.
pub(crate) fn number_said(low: u32, high: u32, text: Option<&str>) -> Option<Option<u32>>
    ensures { result ≡ number_word low high (option_map (λ t. t.now) text.entry) }
{
    match text {
        Some(text) => Some(Some(number_in(low, high, text)?)),
        None => Some(None),
    }
}
