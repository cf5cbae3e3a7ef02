//! The header of a script.
ghost use Rattle.std.specs.Prelude.{◌≡◌, ◌≢◌, ◌<◌, ◌≤◌, ◌==◌, ◌%◌, ◌&&◌, ◌∷◌, [], nat_le, IfOk};
ghost use Rattle.text_model.specs.ScriptLines.{value_in, value_of};
ghost use Rattle.text_model.specs.HeaderReading.{significant_lines_after, end_line_after, setting_from, settings_from};
ghost use Rattle.text_model.specs.Script.{header_settings, is_start_line};
ghost use Rattle.text_model.specs.ScriptReading.{start_from};
ghost use Rattle.trace_script.specs.ScriptFaults.{Gives, GivesAt};
ghost use Rattle.trace_script.specs.ScriptTypes.{setting_of, values_of};

use crate::fault::{LineFault, ScriptFault, reading_at};
use crate::fields::{Fields, fields_of, is_well_spaced};
use crate::lines::Lines;
use crate::values::number_of;
use text_model::{
    MAX_SCRIPT_COLLECTORS, MAX_SCRIPT_CPUS, MIN_SCRIPT_COLLECTORS, MIN_SCRIPT_CPUS, SIZE_STEP,
};
use trace_model::{LINK_FILLS, MAX_PAGES, MAX_SIZE, MIN_PAGES, MIN_SIZE, START_FILL};

/// The values of a script's header.
#[derive(Clone, Copy, Debug)]
pub(crate) struct Header {
    /// The pages of a ring, without its spare.
    pub(crate) pages: usize,
    /// The data size of a page, in bytes.
    pub(crate) size: usize,
    /// How many CPUs there are.
    pub(crate) cpus: u32,
    /// How many collectors there are, at most 16.
    pub(crate) collectors: u8,
}

/// A line of the header, or the start line after it.
#[derive(Clone, Copy)]
pub(crate) enum Setting {
    Pages,
    Size,
    Cpus,
    Collectors,
    /// Of rings of this number of pages.
    Start(usize),
}

/// The values that a line of the header may have: multiples of a step.
#[derive(Clone, Copy)]
pub(crate) struct Limits {
    /// The least value.
    pub(crate) min: u64,
    /// The greatest value.
    pub(crate) max: u64,
    /// What each value is a multiple of.
    pub(crate) step: u64,
}

impl Setting {
    /// The word before the value.
    fn word(self) -> &'static [u8]
        ensures { result.now ≡ (setting_of self).word }
    {
        match self {
            Setting::Pages => b"pages",
            Setting::Size => b"size",
            Setting::Cpus => b"cpus",
            Setting::Collectors => b"collectors",
            Setting::Start(_) => b"start",
        }
    }

    /// The values that it may have.
    fn limits(self) -> Limits
        ensures min { result.min ≡ (setting_of self).min }
        ensures max { result.max ≡ (setting_of self).max }
        ensures step { result.step ≡ (setting_of self).step }
        ensures steps { 0 < result.step }
    {
        match self {
            Setting::Pages => Limits {
                min: MIN_PAGES as u64,
                max: MAX_PAGES as u64,
                step: 1,
            },
            Setting::Size => Limits {
                min: MIN_SIZE as u64,
                max: MAX_SIZE as u64,
                step: SIZE_STEP as u64,
            },
            Setting::Cpus => Limits {
                min: u64::from(MIN_SCRIPT_CPUS),
                max: u64::from(MAX_SCRIPT_CPUS),
                step: 1,
            },
            Setting::Collectors => Limits {
                min: MIN_SCRIPT_COLLECTORS as u64,
                max: MAX_SCRIPT_COLLECTORS as u64,
                step: 1,
            },
            Setting::Start(pages) => Limits {
                min: START_FILL,
                max: (LINK_FILLS - 1).saturating_sub(pages as u64),
                step: 1,
            },
        }
    }
}

impl Limits {
    /// Whether this value is one of them.
    fn allow(&self, value: u64) -> bool
        requires { 0 < self.now.step }
        ensures { result ≡ (nat_le self.now.min value && nat_le value self.now.max
            && (value % self.now.step == 0)) }
    {
        self.min <= value && value <= self.max && value % self.step == 0
    }
}

/// The value that a word and a number give to a setting.
#[tactic(auto, unfolding(text_model::specs::ScriptLines::value_of))]
fn value_given(setting: Setting, word: &[u8], number: &[u8]) -> Result<u64, LineFault>
    ensures gives { Gives (λ value. value) result
        (value_of (setting_of setting) (word.now ∷ number.now ∷ [])) }
    ensures never_out_of_memory { result ≢ Err LineFault.NoMemory }
    ensures within { IfOk result (λ value. value ≤ (setting_of setting).max) }
{
    if word != setting.word() {
        return Err(LineFault::BadLine);
    }
    let value = number_of(number)?;
    if !setting.limits().allow(value) {
        return Err(LineFault::OutOfRange);
    }
    Ok(value)
}

/// The value that a line gives to a setting.
fn value_in(setting: Setting, line: &[u8]) -> Result<u64, LineFault>
    ensures gives { Gives (λ value. value) result (value_in (setting_of setting) line.now) }
    ensures never_out_of_memory { result ≢ Err LineFault.NoMemory }
    ensures within { IfOk result (λ value. value ≤ (setting_of setting).max) }
{
    if !is_well_spaced(line) {
        return Err(LineFault::BadLine);
    }
    match fields_of(line) {
        Fields::Two(word, number) => value_given(setting, word, number),
        _ => Err(LineFault::BadLine),
    }
}

/// The value of a setting, from the next significant line.
fn read_setting(lines: &mut Lines, setting: Setting) -> Result<u64, ScriptFault>
    ensures gives { GivesAt
        (λ value. (value, significant_lines_after lines.new.passed lines.new.rest.now)) result
        (setting_from (end_line_after lines.old.passed lines.old.rest.now) (setting_of setting)
        (significant_lines_after lines.old.passed lines.old.rest.now)) }
    ensures never_out_of_memory { result ≢ Err ScriptFault.NoMemory }
    ensures within { IfOk result (λ value. value ≤ (setting_of setting).max) }
    ensures end { end_line_after lines.new.passed lines.new.rest.now
        ≡ end_line_after lines.old.passed lines.old.rest.now }
{
    let Some(line) = lines.next_significant() else {
        return Err(ScriptFault::BadLine(lines.passed + 1));
    };
    let value = value_in(setting, line.text);
    reading_at(line.number, value)
}

/// The header, from the next significant lines.
#[tactic(auto, unfolding(text_model::specs::HeaderReading::settings_from))]
pub(crate) fn read_header(lines: &mut Lines) -> Result<Header, ScriptFault>
    ensures gives { GivesAt
        (λ header. (values_of header, significant_lines_after lines.new.passed lines.new.rest.now)) result
        (settings_from (end_line_after lines.old.passed lines.old.rest.now) header_settings
        (significant_lines_after lines.old.passed lines.old.rest.now)) }
    ensures never_out_of_memory { result ≢ Err ScriptFault.NoMemory }
    ensures cpus { IfOk result (λ header. header.cpus ≤ 256) }
{
    let pages = read_setting(lines, Setting::Pages)?;
    let size = read_setting(lines, Setting::Size)?;
    let cpus = read_setting(lines, Setting::Cpus)?;
    let collectors = read_setting(lines, Setting::Collectors)?;
    Ok(Header {
        pages: pages as usize,
        size: size as usize,
        cpus: cpus as u32,
        collectors: collectors as u8,
    })
}

/// Whether a line is a start line: its spaces, its word and its number of fields are those of one.
#[tactic(auto, unfolding(text_model::specs::Script::is_start_line))]
fn is_start_line(line: &[u8]) -> bool
    ensures { result ≡ is_start_line line.now }
{
    if !is_well_spaced(line) {
        return false;
    }
    match fields_of(line) {
        Fields::Two(word, _) => word == b"start".as_slice(),
        _ => false,
    }
}

/// The number of each ring's first fill, from the next significant line if it is a start line. Another line stays.
pub(crate) fn read_start(lines: &mut Lines, pages: usize) -> Result<u64, ScriptFault>
    ensures gives { GivesAt
        (λ start. (start, significant_lines_after lines.new.passed lines.new.rest.now)) result
        (start_from pages (significant_lines_after lines.old.passed lines.old.rest.now)) }
    ensures never_out_of_memory { result ≢ Err ScriptFault.NoMemory }
{
    let mut behind = *lines;
    let Some(line) = behind.next_significant() else {
        return Ok(START_FILL);
    };
    if !is_start_line(line.text) {
        return Ok(START_FILL);
    }
    *lines = behind;
    let start = value_in(Setting::Start(pages), line.text);
    reading_at(line.number, start)
}
