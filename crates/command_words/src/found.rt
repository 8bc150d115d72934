//! What clap found for the arguments of a subcommand.
ghost use Rattle.std.specs.Prelude.{◌≡◌, option_map, codes};
ghost use Rattle.clap.specs.Words.{first_of, found_of, rows_of};
ghost use Rattle.bn_base.specs.Ranges.{default_settings};
ghost use Rattle.command_words.specs.Words.{seen, seen_recording, number_of, number_or, number_if, number_at, pair_at, place_at, flag_in, run_at, sizes_at, cache_at, second_at, settings_in, recording_in, record_in, replay_in, joint_in, debug_in, list_in, check_in, audit_in, races_in, slice_in, convert_in, salvage_in, demo_in, named_last, named_later, named};

use crate::commands::{Command, RecordOptions};
use bn_base::RawSettings;
use clap::ArgMatches;

fn text_at<'a>(matches: &ArgMatches<'a>, id: &str) -> Option<&'a str>
    ensures { option_map (λ s. s.now) result ≡ first_of id.now (rows_of (found_of matches.now)) }
{
    matches.get_str(id)
}

#[tactic(auto, using(crate::proofs::Values::number_read))]
fn number_of(text: &str) -> Option<u64>
    ensures { result ≡ number_of text.now }
{
    text.parse().ok()
}

fn number_at(matches: &ArgMatches<'_>, id: &str) -> Option<u64>
    ensures { result ≡ number_at id.now (rows_of (found_of matches.now)) }
{
    match text_at(matches, id) {
        None => None,
        Some(text) => number_of(text),
    }
}

// The number of an option, or its default without it; `None` if its text is no number.
fn number_or(matches: &ArgMatches<'_>, id: &str, default: u64) -> Option<u64>
    ensures { result ≡ number_or default id.now (rows_of (found_of matches.now)) }
{
    match text_at(matches, id) {
        None => Some(default),
        Some(text) => number_of(text),
    }
}

// The number of an option that may be left out: `Some(None)` without it, `None` if its text is no number.
fn number_if(matches: &ArgMatches<'_>, id: &str) -> Option<Option<u64>>
    ensures { result ≡ number_if id.now (rows_of (found_of matches.now)) }
{
    match text_at(matches, id) {
        None => Some(None),
        Some(text) => match number_of(text) {
            None => None,
            Some(number) => Some(Some(number)),
        },
    }
}

fn flag_in(matches: &ArgMatches<'_>, id: &str) -> bool
    ensures { result ≡ flag_in id.now (rows_of (found_of matches.now)) }
{
    match text_at(matches, id) {
        None => false,
        Some(text) => text == "true",
    }
}

// Harts, interval, limit and format.
fn run_at(matches: &ArgMatches<'_>, default: &RawSettings) -> Option<(u64, u64, u64, u64)>
    requires { default.now ≡ default_settings }
    ensures { result ≡ run_at (rows_of (found_of matches.now)) }
{
    let harts = number_or(matches, "harts", default.harts)?;
    let interval = number_or(matches, "interval", default.interval)?;
    let limit = number_or(matches, "limit", default.limit)?;
    let format = number_or(matches, "format", default.format)?;
    Some((harts, interval, limit, format))
}

// The sizes of the log and of memory.
fn sizes_at(matches: &ArgMatches<'_>, default: &RawSettings) -> Option<(u64, u64)>
    requires { default.now ≡ default_settings }
    ensures { result ≡ sizes_at (rows_of (found_of matches.now)) }
{
    let log_size = number_or(matches, "log-size", default.log_size)?;
    let memory = number_or(matches, "memory", default.memory)?;
    Some((log_size, memory))
}

// The sets, ways and words a line of a cache.
fn cache_at(matches: &ArgMatches<'_>, default: &RawSettings) -> Option<(u64, u64, u64)>
    requires { default.now ≡ default_settings }
    ensures { result ≡ cache_at (rows_of (found_of matches.now)) }
{
    let sets = number_or(matches, "sets", default.sets)?;
    let ways = number_or(matches, "ways", default.ways)?;
    let line = number_or(matches, "line", default.line)?;
    Some((sets, ways, line))
}

// The sets and ways of its second level.
fn second_at(matches: &ArgMatches<'_>, default: &RawSettings) -> Option<(u64, u64)>
    requires { default.now ≡ default_settings }
    ensures { result ≡ second_at (rows_of (found_of matches.now)) }
{
    let sets2 = number_or(matches, "sets2", default.sets2)?;
    let ways2 = number_or(matches, "ways2", default.ways2)?;
    Some((sets2, ways2))
}

fn settings_in(matches: &ArgMatches<'_>) -> Option<RawSettings>
    ensures { result ≡ settings_in (rows_of (found_of matches.now)) }
{
    let default = RawSettings::default();
    let (harts, interval, limit, format) = run_at(matches, &default)?;
    let (log_size, memory) = sizes_at(matches, &default)?;
    let (sets, ways, line) = cache_at(matches, &default)?;
    let (sets2, ways2) = second_at(matches, &default)?;
    Some(RawSettings {
        harts,
        interval,
        limit,
        log_size,
        memory,
        sets,
        ways,
        line,
        format,
        sets2,
        ways2,
    })
}

fn recording_in<'a>(matches: &ArgMatches<'a>) -> Option<RecordOptions<'a>>
    ensures { option_map seen_recording result ≡ recording_in (rows_of (found_of matches.now)) }
{
    let settings = settings_in(matches)?;
    let seed = number_if(matches, "seed")?;
    let elf = text_at(matches, "elf")?;
    let log = text_at(matches, "log")?;
    let book = text_at(matches, "book")?;
    let lean = flag_in(matches, "lean");
    let input = text_at(matches, "input");
    Some(RecordOptions {
        settings,
        seed,
        lean,
        input,
        elf,
        log,
        book,
    })
}

fn record_in<'a>(matches: &ArgMatches<'a>) -> Option<Command<'a>>
    ensures { option_map seen result ≡ record_in (rows_of (found_of matches.now)) }
{
    match recording_in(matches) {
        None => None,
        Some(recording) => Some(Command::Record(recording)),
    }
}

// The names of a log and of another file.
fn pair_at<'a>(matches: &ArgMatches<'a>, id: &str) -> Option<(&'a str, &'a str)>
    ensures { option_map (λ files. (files.0.now, files.1.now)) result ≡ pair_at id.now (rows_of (found_of matches.now)) }
{
    let log = text_at(matches, "log")?;
    let other = text_at(matches, id)?;
    Some((log, other))
}

// A hart and an interval.
fn place_at(matches: &ArgMatches<'_>) -> Option<(u64, u64)>
    ensures { result ≡ place_at (rows_of (found_of matches.now)) }
{
    let hart = number_at(matches, "hart")?;
    let interval = number_at(matches, "interval")?;
    Some((hart, interval))
}

fn replay_in<'a>(matches: &ArgMatches<'a>) -> Option<Command<'a>>
    ensures { option_map seen result ≡ replay_in (rows_of (found_of matches.now)) }
{
    let (log, elf) = pair_at(matches, "elf")?;
    let (hart, interval) = place_at(matches)?;
    Some(Command::Replay {
        log,
        elf,
        hart,
        interval,
    })
}

fn joint_in<'a>(matches: &ArgMatches<'a>) -> Option<Command<'a>>
    ensures { option_map seen result ≡ joint_in (rows_of (found_of matches.now)) }
{
    let (log, elf) = pair_at(matches, "elf")?;
    Some(Command::Joint { log, elf })
}

fn debug_in<'a>(matches: &ArgMatches<'a>) -> Option<Command<'a>>
    ensures { option_map seen result ≡ debug_in (rows_of (found_of matches.now)) }
{
    let (log, elf) = pair_at(matches, "elf")?;
    Some(Command::Debug { log, elf })
}

fn list_in<'a>(matches: &ArgMatches<'a>) -> Option<Command<'a>>
    ensures { option_map seen result ≡ list_in (rows_of (found_of matches.now)) }
{
    let log = text_at(matches, "log")?;
    Some(Command::List { log })
}

fn check_in<'a>(matches: &ArgMatches<'a>) -> Option<Command<'a>>
    ensures { option_map seen result ≡ check_in (rows_of (found_of matches.now)) }
{
    let log = text_at(matches, "log")?;
    Some(Command::Check { log })
}

fn audit_in<'a>(matches: &ArgMatches<'a>) -> Option<Command<'a>>
    ensures { option_map seen result ≡ audit_in (rows_of (found_of matches.now)) }
{
    let (log, elf) = pair_at(matches, "elf")?;
    let book = text_at(matches, "book")?;
    Some(Command::Audit {
        log,
        elf,
        book,
        input: text_at(matches, "input"),
    })
}

fn races_in<'a>(matches: &ArgMatches<'a>) -> Option<Command<'a>>
    ensures { option_map seen result ≡ races_in (rows_of (found_of matches.now)) }
{
    let (log, elf) = pair_at(matches, "elf")?;
    let max = number_at(matches, "max")?;
    Some(Command::Races { log, elf, max })
}

fn slice_in<'a>(matches: &ArgMatches<'a>) -> Option<Command<'a>>
    ensures { option_map seen result ≡ slice_in (rows_of (found_of matches.now)) }
{
    let (log, elf) = pair_at(matches, "elf")?;
    let (hart, interval) = place_at(matches)?;
    let ic = number_at(matches, "ic")?;
    Some(Command::Slice {
        log,
        elf,
        hart,
        interval,
        ic,
    })
}

fn convert_in<'a>(matches: &ArgMatches<'a>) -> Option<Command<'a>>
    ensures { option_map seen result ≡ convert_in (rows_of (found_of matches.now)) }
{
    let (log, new) = pair_at(matches, "new")?;
    Some(Command::Convert { log, new })
}

fn salvage_in<'a>(matches: &ArgMatches<'a>) -> Option<Command<'a>>
    ensures { option_map seen result ≡ salvage_in (rows_of (found_of matches.now)) }
{
    let (log, new) = pair_at(matches, "new")?;
    Some(Command::Salvage { log, new })
}

fn demo_in<'a>(matches: &ArgMatches<'a>) -> Option<Command<'a>>
    ensures { option_map seen result ≡ demo_in (rows_of (found_of matches.now)) }
{
    let seed = number_at(matches, "seed")?;
    Some(Command::Demo { seed })
}

// The command of the subcommand of this name, for whose arguments this was found: one of the last four.
fn named_last<'a>(name: &str, matches: &ArgMatches<'a>) -> Option<Command<'a>>
    ensures { option_map seen result ≡ named_last name.now (rows_of (found_of matches.now)) }
{
    if name == "slice" {
        slice_in(matches)
    } else if name == "convert" {
        convert_in(matches)
    } else if name == "salvage" {
        salvage_in(matches)
    } else if name == "demo" {
        demo_in(matches)
    } else {
        None
    }
}

// The same, one of the last eight.
fn named_later<'a>(name: &str, matches: &ArgMatches<'a>) -> Option<Command<'a>>
    ensures { option_map seen result ≡ named_later name.now (rows_of (found_of matches.now)) }
{
    if name == "list" {
        list_in(matches)
    } else if name == "check" {
        check_in(matches)
    } else if name == "audit" {
        audit_in(matches)
    } else if name == "races" {
        races_in(matches)
    } else {
        named_last(name, matches)
    }
}

// The same, any.
pub fn named<'a>(name: &str, matches: &ArgMatches<'a>) -> Option<Command<'a>>
    ensures { option_map seen result ≡ named name.now (rows_of (found_of matches.now)) }
{
    if name == "record" {
        record_in(matches)
    } else if name == "replay" {
        replay_in(matches)
    } else if name == "joint" {
        joint_in(matches)
    } else if name == "debug" {
        debug_in(matches)
    } else {
        named_later(name, matches)
    }
}
