//! The program's options: what each takes, and its help.
ghost use Rattle.std.specs.Prelude.{◌≡◌, false};
ghost use Rattle.clap.specs.Walk.{rule_of};
ghost use Rattle.heapctl_words.specs.Words.{atomic_sectors_option, capacity_option, file_option, flag_option, lanes_option, last_option, names_option, path_option, rounds_option, seconds_option, sectors_option, slot_option, workers_option};

use clap::{Arg, ArgAction, value_parser};
use heap_model::{LANES, LEAST_CAPACITY, MOST_CAPACITY};
use std::alloc::Global;

/// An option that takes the path of a file, and has to be there.
pub(crate) fn path<'a>(alloc: Global, name: &'a str, about: &'a str) -> Arg<'a>
    ensures rule { rule_of result ≡ path_option name.entry.now }
    ensures own { result.global ≡ false }
{
    Arg::new(alloc, name)
        .long(name)
        .value_name("FILE")
        .help(about)
        .required(true)
}

pub(crate) fn lanes<'a>(alloc: Global) -> Arg<'a>
    ensures rule { rule_of result ≡ lanes_option }
    ensures own { result.global ≡ false }
{
    Arg::new(alloc, "lanes")
        .long("lanes")
        .value_name("N")
        .help("The number of threads, 1 to 32")
        .value_parser(value_parser!(u8).range(1..=LANES as i64))
        .default_value("4")
}

pub(crate) fn capacity<'a>(alloc: Global) -> Arg<'a>
    ensures rule { rule_of result ≡ capacity_option }
    ensures own { result.global ≡ false }
{
    Arg::new(alloc, "capacity")
        .long("capacity")
        .value_name("N")
        .help("The records that a thread's log holds,\n2000 to 1048576")
        .value_parser(value_parser!(u32).range(
            i64::from(LEAST_CAPACITY)..=i64::from(MOST_CAPACITY),
        ))
        .default_value("4000")
}

/// An option that takes the path of a file, and may be missing.
pub(crate) fn file<'a>(alloc: Global, name: &'a str, about: &'a str) -> Arg<'a>
    ensures rule { rule_of result ≡ file_option name.entry.now }
    ensures own { result.global ≡ false }
{
    Arg::new(alloc, name)
        .long(name)
        .value_name("FILE")
        .help(about)
}

pub(crate) fn workers<'a>(alloc: Global) -> Arg<'a>
    ensures rule { rule_of result ≡ workers_option }
    ensures own { result.global ≡ false }
{
    Arg::new(alloc, "workers")
        .long("workers")
        .value_name("N")
        .help("The number of threads, 1 to 32")
        .value_parser(value_parser!(u8).range(1..=LANES as i64))
        .default_value("2")
}

pub(crate) fn rounds<'a>(alloc: Global) -> Arg<'a>
    ensures rule { rule_of result ≡ rounds_option }
    ensures own { result.global ≡ false }
{
    Arg::new(alloc, "rounds")
        .long("rounds")
        .value_name("N")
        .help(
            "The sections that each thread runs, 1 to 10000,\nin place of --seconds. 1000 without either",
        )
        .value_parser(value_parser!(u32).range(1..=10_000))
}

pub(crate) fn seconds<'a>(alloc: Global) -> Arg<'a>
    ensures rule { rule_of result ≡ seconds_option }
    ensures own { result.global ≡ false }
{
    Arg::new(alloc, "seconds")
        .long("seconds")
        .value_name("N")
        .help(
            "How long the threads work, 1 to 3600 seconds,\nin place of --rounds. Without --image each write\ntakes memory",
        )
        .value_parser(value_parser!(u32).range(1..=3_600))
}

pub(crate) fn last<'a>(alloc: Global) -> Arg<'a>
    ensures rule { rule_of result ≡ last_option }
    ensures own { result.global ≡ false }
{
    Arg::new(alloc, "last")
        .long("last")
        .value_name("N")
        .help("With --dot: draws at most the last N sections of\neach thread. 50 without this")
        .value_parser(value_parser!(u32).range(1..=1_000_000_000))
}

/// An option that is met or isn't.
pub(crate) fn flag<'a>(alloc: Global, name: &'a str, about: &'a str) -> Arg<'a>
    ensures rule { rule_of result ≡ flag_option name.entry.now }
    ensures own { result.global ≡ false }
{
    Arg::new(alloc, name)
        .long(name)
        .help(about)
        .action(ArgAction::SetTrue)
}

pub(crate) fn sectors<'a>(alloc: Global) -> Arg<'a>
    ensures rule { rule_of result ≡ sectors_option }
    ensures own { result.global ≡ false }
{
    Arg::new(alloc, "sectors")
        .long("sectors")
        .value_name("BYTES")
        .help(
            "Keeps the image in two places, for a disk that may\nlose the sector that it is writing when the power\nfails. BYTES is the size of a sector, 4096",
        )
        .value_parser(value_parser!(u32).range(512..=4096))
}

pub(crate) fn atomic_sectors<'a>(alloc: Global) -> Arg<'a>
    ensures rule { rule_of result ≡ atomic_sectors_option }
    ensures own { result.global ≡ false }
{
    flag(
        alloc,
        "atomic-sectors",
        "Keeps the image behind a journal, for storage that\nkeeps each sector of 512 bytes whole when the power\nfails. A program's changes then take one sync in\nplace of two. On other storage a power failure may\nlose them",
    )
}

pub(crate) fn slot<'a>(alloc: Global) -> Arg<'a>
    ensures rule { rule_of result ≡ slot_option }
    ensures own { result.global ≡ false }
{
    Arg::new(alloc, "slot").long("slot").value_name("a|b").help(
        "Prints the values that 'recover' would give by this\ncontrol slot, a or b, whatever the other one holds",
    )
}

/// Words that are no options, one at least: what each names, and of what.
pub(crate) fn names<'a>(alloc: Global, name: &'a str, about: &'a str) -> Arg<'a>
    ensures rule { rule_of result ≡ names_option }
    ensures own { result.global ≡ false }
{
    Arg::new(alloc, "names")
        .value_name(name)
        .help(about)
        .num_args(1..)
        .required(true)
}
