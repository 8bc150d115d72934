//! The settings of a recording, and the first that is out of range. A log's head stores them.
ghost use Rattle.std.specs.Prelude.{◌≡◌, ◌<◌, ◌≤◌, ◌*◌, ◌^◌, ◌%◌, ℕ, IsTrue, IfSome};
ghost use Rattle.std.specs.Int.{is_power_of_two};
ghost use Rattle.bn_base.specs.Ranges.{is_between, is_small_power, is_memory_size, is_second_sets, is_second_ways, most_harts, checked, first_bad, setting_name, IsSetting};

use std::marker::Model;
use thiserror::Error;

/// How many harts times, reservations and lists of reservations have room for.
pub const HARTS: usize = 16;

/// Settings as they were given, in range or not.
#[derive(Clone, Copy, Debug, PartialEq, Eq, Drop)]
pub struct RawSettings {
    /// The number of harts.
    pub harts: u64,
    /// The length of a full checkpoint interval, in instructions.
    pub interval: u64,
    /// How many instructions each hart may do.
    pub limit: u64,
    /// How many bytes of log records are kept.
    pub log_size: u64,
    /// The size of the address space, in bytes.
    pub memory: u64,
    /// The number of sets of each hart's cache.
    pub sets: u64,
    /// The number of lines in a set.
    pub ways: u64,
    /// The number of words in a line.
    pub line: u64,
    /// The version of the log file.
    pub format: u64,
    /// The number of sets of the second level of each hart's cache; 0 if there is none.
    pub sets2: u64,
    /// The number of lines in a set of the second level; 0 if there is none.
    pub ways2: u64,
}

/// The first setting that is out of range, in the order of `RawSettings`. Its field's number is its
/// place there counted from 1, up to line, 8; format has 10, sets2 11 and ways2 12.
/// 9 is no setting: in a file's head it is the number of the records' bytes.
#[derive(Clone, Copy, Debug, PartialEq, Eq, Drop, Error)]
#[error("setting {field} is out of range: {value}")]
pub struct BadSetting {
    pub field: u8,
    pub value: u64,
}

/// Settings in range:
///
/// | setting | range |
/// |---|---|
/// | harts | 1 to 8; with format 2, 1 to 16 |
/// | interval | 1 to 10,000,000 |
/// | limit | 1 to 2^40 |
/// | log size | 16,384 to 2^28 |
/// | memory | 65,536 to 2^26, a multiple of 4,096 |
/// | sets | a power of two, 1 to 1,024 |
/// | ways | 1 to 16 |
/// | line | a power of two, 1 to 16 |
/// | format | 1 to 2 |
/// | sets2 | 0; with format 2 also a power of two, 1 to 4,096 |
/// | ways2 | 0 if sets2 is 0, else 1 to 16 |
#[derive(Clone, Copy, PartialEq, Eq, Drop)]
pub struct Settings {
    raw: RawSettings,
}

impl Model for Settings {
    ghost use Rattle.bn_base.specs.declared.settings.RawSettings.{RawSettings};

    ghost Value = { RawSettings };

    ghost use Rattle.bn_base.specs.Ranges.{IsSetting};

    ghost view = { λ s. s.raw };

    ghost invariant = { λ s. IsSetting s.raw };

    ghost inverse = { λ r. record { raw = r } };
}

impl Default for RawSettings {
    ghost use Rattle.bn_base.specs.Ranges.{default_settings};

    ghost is_default = { λ s. s ≡ default_settings };

    /// One hart, intervals of 100,000 instructions, a limit of 10^9 instructions, 1 MiB of log,
    /// 1 MiB of memory, and log files of version 1. The cache has 64 sets of 4 lines of 8 words and
    /// no second level.
    fn default() -> RawSettings {
        RawSettings {
            harts: 1,
            interval: 100_000,
            limit: 1_000_000_000,
            log_size: 1_048_576,
            memory: 1_048_576,
            sets: 64,
            ways: 4,
            line: 8,
            format: 1,
            sets2: 0,
            ways2: 0,
        }
    }
}

impl Default for Settings {
    ghost use Rattle.bn_base.specs.Ranges.{default_settings};

    ghost is_default = { λ s. s ≡ default_settings };

    /// The default of `RawSettings`, which is in range.
    fn default() -> Settings {
        Settings {
            raw: RawSettings::default(),
        }
    }
}

impl BadSetting {
    /// The name of the setting, as it is given on a command line; `-` for a field that no
    /// setting has.
    #[tactic(auto, unfolding(crate::specs::Ranges::setting_name))]
    pub fn name(&self) -> &'static str
        ensures { result.now ≡ setting_name self.now.field }
    {
        match self.field {
            1 => "harts",
            2 => "interval",
            3 => "limit",
            4 => "log-size",
            5 => "memory",
            6 => "sets",
            7 => "ways",
            8 => "line",
            10 => "format",
            11 => "sets2",
            12 => "ways2",
            _ => "-",
        }
    }
}

fn is_between(low: u64, high: u64, value: u64) -> bool
    ensures { result ≡ is_between low high value }
{
    low <= value && value <= high
}

fn is_small_power(high: u64, value: u64) -> bool
    ensures { result ≡ is_small_power high value }
{
    is_between(1, high, value) && value.is_power_of_two()
}

fn is_memory_size(value: u64) -> bool
    ensures { result ≡ is_memory_size value }
{
    is_between(65_536, 1 << 26, value) && value % 4096 == 0
}

// The most harts that the settings can have.
// Any other format than 2 allows 8, also one that is out of range: harts are tested before it.
fn most_harts(raw: &RawSettings) -> u64
    ensures { result ≡ most_harts raw.now }
{
    if raw.format == 2 { 16 } else { 8 }
}

// Whether a second level has so many sets: none, or with format 2 a power of two.
// It comes with format 2 alone, since a file of version 1 has no field for it.
fn is_second_sets(raw: &RawSettings) -> bool
    ensures { result ≡ is_second_sets raw.now }
{
    raw.sets2 == 0 || raw.format == 2 && is_small_power(4096, raw.sets2)
}

// Whether a second level has so many ways: none if and only if it has no sets.
// Sets are tested first, so ways without sets are refused as ways.
fn is_second_ways(raw: &RawSettings) -> bool
    ensures { result ≡ is_second_ways raw.now }
{
    if raw.sets2 == 0 {
        raw.ways2 == 0
    } else {
        is_between(1, 16, raw.ways2)
    }
}

fn bad(field: u8, value: u64) -> Option<BadSetting>
    ensures { result ≡ Some (record { field = field; value = value }) }
{
    Some(BadSetting { field, value })
}

fn first_bad(raw: &RawSettings) -> Option<BadSetting>
    ensures { result ≡ first_bad raw.now }
{
    if !is_between(1, most_harts(raw), raw.harts) {
        return bad(1, raw.harts);
    }
    if !is_between(1, 10_000_000, raw.interval) {
        return bad(2, raw.interval);
    }
    if !is_between(1, 1 << 40, raw.limit) {
        return bad(3, raw.limit);
    }
    if !is_between(16_384, 1 << 28, raw.log_size) {
        return bad(4, raw.log_size);
    }
    if !is_memory_size(raw.memory) {
        return bad(5, raw.memory);
    }
    if !is_small_power(1024, raw.sets) {
        return bad(6, raw.sets);
    }
    if !is_between(1, 16, raw.ways) {
        return bad(7, raw.ways);
    }
    if !is_small_power(16, raw.line) {
        return bad(8, raw.line);
    }
    if !is_between(1, 2, raw.format) {
        return bad(10, raw.format);
    }
    if !is_second_sets(raw) {
        return bad(11, raw.sets2);
    }
    if !is_second_ways(raw) {
        return bad(12, raw.ways2);
    }
    None
}

impl Settings {
    /// Tests each setting. The error names the first one out of range, with its value.
    #[tactic(auto, using(crate::proofs::Tested::in_range))]
    pub fn checked(raw: &RawSettings) -> Result<Settings, BadSetting>
        ensures { result ≡ checked raw.now }
    {
        match first_bad(raw) {
            Some(bad) => Err(bad),
            None => Ok(Settings { raw: *raw }),
        }
    }

    /// All settings, which are in range.
    pub fn raw(&self) -> RawSettings
        ensures value { result ≡ self.now }
        ensures in_range { IsSetting self.now }
    {
        self.raw
    }

    /// The number of harts.
    pub fn harts(&self) -> u8
        ensures value { result ≡ self.now.harts }
        ensures low { 1 ≤ result }
        // Whatever the format, and with format 1.
        ensures room { result ≤ HARTS }
        ensures few { self.now.format ≡ 1 → result ≤ 8 }
    {
        self.raw.harts as u8
    }

    /// The length of a full checkpoint interval, in instructions.
    pub fn interval(&self) -> u32
        ensures value { result ≡ self.now.interval }
        ensures low { 1 ≤ result }
        ensures high { result ≤ 10000000 }
    {
        self.raw.interval as u32
    }

    /// How many instructions each hart may do.
    pub fn limit(&self) -> u64
        ensures value { result ≡ self.now.limit }
        ensures low { 1 ≤ result }
        ensures high { result ≤ 2 ^ 40 }
    {
        self.raw.limit
    }

    /// How many bytes of log records are kept.
    pub fn log_size(&self) -> u32
        ensures value { result ≡ self.now.log_size }
        ensures low { 16384 ≤ result }
        ensures high { result ≤ 2 ^ 28 }
    {
        self.raw.log_size as u32
    }

    /// The size of the address space in bytes, a multiple of 4,096.
    pub fn memory(&self) -> u32
        ensures value { result ≡ self.now.memory }
        ensures low { 65536 ≤ result }
        ensures high { result ≤ 2 ^ 26 }
        ensures pages { result % 4096 ≡ 0 }
    {
        self.raw.memory as u32
    }

    /// The number of sets of each hart's cache, a power of two.
    pub fn sets(&self) -> u32
        ensures value { result ≡ self.now.sets }
        ensures low { 1 ≤ result }
        ensures high { result ≤ 1024 }
    {
        self.raw.sets as u32
    }

    /// The number of lines in a set.
    pub fn ways(&self) -> u32
        ensures value { result ≡ self.now.ways }
        ensures low { 1 ≤ result }
        ensures high { result ≤ 16 }
    {
        self.raw.ways as u32
    }

    /// The number of words in a line, a power of two.
    pub fn line(&self) -> u32
        ensures value { result ≡ self.now.line }
        ensures low { 1 ≤ result }
        ensures high { result ≤ 16 }
    {
        self.raw.line as u32
    }

    /// The version of the log file.
    pub fn format(&self) -> u8
        ensures value { result ≡ self.now.format }
        ensures low { 1 ≤ result }
        ensures high { result ≤ 2 }
    {
        self.raw.format as u8
    }

    /// The number of sets of the second level of each hart's cache, a power of two; 0 if there is none.
    pub fn second_sets(&self) -> u32
        ensures value { result ≡ self.now.sets2 }
        ensures high { result ≤ 4096 }
    {
        self.raw.sets2 as u32
    }

    /// The number of lines in a set of the second level; 0 if there is none.
    pub fn second_ways(&self) -> u32
        ensures value { result ≡ self.now.ways2 }
        ensures high { result ≤ 16 }
    {
        self.raw.ways2 as u32
    }
}
