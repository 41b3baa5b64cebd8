//! The program's words.
ghost use Rattle.std.specs.Prelude.{◌≡◌, ◌↔◌, ◌∷◌, [], List, ℕ, codes, false, true, map, option_map, string_bytes, unwrap_or, IfErr, IfOk, IsTrue};
ghost use Rattle.clap.specs.Simple.{App, app_of, subcommand_of, subcommand_rows_of, with_rule, with_subcommand};
ghost use Rattle.clap.specs.Values.{kind_of};
ghost use Rattle.clap.specs.Walk.{Rule, all_of, first_of, one_of, rows_of, rule_of};
ghost use Rattle.clap.specs.Matches.{found_of};
ghost use Rattle.clap.specs.declared.error.kind.ErrorKind.TheVariants.{ArgumentConflict, OutOfMemory};
ghost use Rattle.heapctl_words.specs.Words.{AsksFor, AsksForKind, AsksForPart, HasBothLengths, HasIdleOptions, HasNoKind, HasOnePath, HasUnclearPart, IsAnsweredBy, IsSet, LastIs, MayRead, NamesSlot, Reads, drive_words, dump_words, format_words, get_words, names_asked, plain_format_words, program, recover_words, run_words, set_words, show_words, top as top_words, upgrade_words};

use crate::options::{
    atomic_sectors, capacity, file, flag, lanes, last, names, path, rounds, seconds, sectors, slot,
    workers,
};
use clap::error::ErrorKind;
use clap::{Arg, ArgMatches, Command, Error};
use std::alloc::{AllocError, Global};

/// What the words ask for.
#[derive(Clone, Copy, PartialEq, Eq)]
pub enum Words<'a> {
    /// To play the script on standard input. No words ask for it too.
    Run {
        /// The path of the image file over which it is played; it makes an image in memory where there is none.
        image: Option<&'a str>,
        /// The path of the schema file that gives the names of the image's objects and fields; there are numbers where there is none.
        schema: Option<&'a str>,
        /// Whether the first refused line ends the run.
        is_strict: bool,
    },
    /// To make an image file for the schema that a schema file declares.
    Format {
        /// The image file's path.
        image: &'a str,
        /// The schema file's path.
        schema: &'a str,
        /// The number of lanes, 1 to 32.
        lanes: u8,
        /// The records that a lane's area holds, 2,000 to 1,048,576.
        capacity: u32,
        /// How the image is to lie in its file.
        kind: Kind,
        /// Whether an image that is there is replaced without being kept beside the new one.
        is_forced: bool,
    },
    /// To print what an image file holds.
    Show {
        /// The image file's path.
        image: &'a str,
        /// What only a graph has a use for: [`read_words`] takes no words that name it here.
        last: Option<u32>,
        /// The same.
        schema: Option<&'a str>,
    },
    /// To print the sections of an image file as a graph for Graphviz.
    Draw {
        /// The image file's path.
        image: &'a str,
        /// How many of each thread's sections that have ended are drawn at most, the last ones; 1 or more.
        last: u32,
        /// The path of the schema file that gives the names; there are numbers where there is none.
        schema: Option<&'a str>,
    },
    /// To print the values of an image file's fields as a schema file.
    Dump {
        /// The image file's path.
        image: &'a str,
        /// The path of the schema file that gives the names; there are numbers where there is none.
        schema: Option<&'a str>,
        /// Which values.
        part: Part,
    },
    /// To print the values of fields of an image file.
    Get {
        /// The image file's path.
        image: &'a str,
        /// The path of the schema file that gives the names; there are numbers where there is none.
        schema: Option<&'a str>,
    },
    /// To set fields of an image file.
    Set {
        /// The image file's path.
        image: &'a str,
        /// The path of the schema file that gives the names; there are numbers where there is none.
        schema: Option<&'a str>,
    },
    /// To recover an image file after a crash.
    Recover {
        /// The image file's path.
        image: &'a str,
    },
    /// To make an image file of version 1 one of version 2, in place, and to recover it so.
    Upgrade {
        /// The image file's path.
        image: &'a str,
    },
    /// To let threads work on one heap, and to print what is acknowledged of them at the end.
    Drive {
        /// The number of workers, each a thread of its own, 1 to 32.
        workers: u8,
        /// How many sections each of them works, 1 to 10,000; 1,000 where nothing is said of seconds either.
        rounds: Option<u32>,
        /// Or how many seconds they work, 1 to 3,600.
        seconds: Option<u32>,
        /// The path of the image file on which they work; in memory where there is none.
        image: Option<&'a str>,
    },
}

/// How a new image is to lie in its file.
#[derive(Clone, Copy, Debug, PartialEq, Eq)]
pub enum Kind {
    /// The file's bytes are the image's.
    Plain,
    /// In two places, on sectors of 4,096 bytes.
    Placed,
    /// Behind a journal, on a device that keeps sectors whole.
    Journaled,
    /// In two places on sectors of another size: [`read_words`] takes no words that ask for it.
    OtherSectors,
    /// In two places and behind a journal: it takes none that ask for this either.
    Both,
}

/// Which values of an image are dumped.
#[derive(Clone, Copy, Debug, PartialEq, Eq)]
pub enum Part {
    /// Those that recovery gives.
    Heap,
    /// Those of the home cells.
    Cells,
    /// Those that recovery gives by slot a of the control, whatever the other one holds.
    SlotA,
    /// Those that it gives by slot b.
    SlotB,
    /// Two of these, or another slot: [`read_words`] takes no words that ask for it.
    Unclear,
}

/// What the words ask for, and for which fields.
#[derive(Drop)]
pub struct Asked<'a> {
    /// What they ask for.
    pub words: Words<'a>,
    /// The names of fields behind `get`, or what `set` is to assign to them, in their order; none behind the other words.
    pub names: Vec<&'a str>,
}

// What stands at the end of the program's help.
const EXIT_STATUSES: &str = "\
Exit status: 0 if all was done; 2 for wrong words, or a schema file or script
that is refused; 3 if another process has the image; 1 for any other fault,
which standard error reports";

// How many sections of each thread a graph has where nothing is said.
const LAST: u32 = 50;

// What is told of one path for two files, of two lengths for one run, of other sectors, of two kinds of image, of options
// that do nothing, and of values that aren't clear.
const ONE_PATH: &str =
    "the image and the schema are two files, and '--image' and '--schema' name one";

const BOTH_LENGTHS: &str =
    "'--rounds' and '--seconds' both say how long the threads work: name one of them";

const OTHER_SECTORS: &str =
    "'--sectors' takes 4096: a file is written in pages of 4096 bytes, so that a power failure may tear all smaller sectors of a page at once; type '--sectors 4096'";

const BOTH_KINDS: &str =
    "'--sectors' keeps the image in two places, and '--atomic-sectors' behind a journal, for devices that promise different things: name one of them";

const IDLE_SCHEMA: &str =
    "'--schema' of 'run' names what an image file holds: name the file too, by '--image'";

const IDLE_DOT: &str = "'--last' and '--schema' of 'show' are for a graph: type '--dot' too";

const UNCLEAR_PART: &str =
    "'--cells' and '--slot' say which values are dumped, and there are two slots: type one of '--cells', '--slot a' and '--slot b'";

// The command with this option more, where there was memory for it.
fn with_option<'a>(
    command: Result<Command<'a>, AllocError>,
    option: Arg<'a>,
) -> Result<Command<'a>, AllocError>
    requires { option.global ≡ false }
    ensures { (was : App) (rule : Rule) → IfOk command.entry (λ c. app_of c ≡ was) → rule_of option.entry ≡ rule
        → IfOk result (λ c. app_of c ≡ with_rule was rule) }
{
    match command {
        Ok(command) => command.arg(option),
        Err(why) => Err(why),
    }
}

// The command with this word more, where there was memory for both.
fn with_word<'a>(
    command: Result<Command<'a>, AllocError>,
    word: Result<Command<'a>, AllocError>,
) -> Result<Command<'a>, AllocError>
    ensures { (was added : App) → IfOk command.entry (λ c. app_of c ≡ was) → IfOk word.entry (λ c. app_of c ≡ added) → added.top.is_plain ≡ true
        → IfOk result (λ c. app_of c ≡ with_subcommand was added.top) }
{
    match command {
        Ok(command) => match word {
            Ok(word) => command.subcommand(word),
            Err(why) => Err(why),
        },
        Err(why) => Err(why),
    }
}

// `format` without the options that say how the image lies.
fn plain_format<'a>(alloc: Global) -> Result<Command<'a>, AllocError>
    ensures { IfOk result (λ command. app_of command ≡ plain_format_words) }
{
    let image = path(
        alloc,
        "image",
        "The image file to make, at another path than the\nschema file",
    );
    let command = Command::new(alloc, "format").about(
        "Makes an image file for the objects and fields of a schema file. An\nimage that is there is kept beside it, under its path with '~'\nappended",
    );
    let command = with_option(Ok(command), image);
    let command = with_option(command, path(alloc, "schema", "The schema file"));
    let command = with_option(command, lanes(alloc));
    with_option(command, capacity(alloc))
}

fn format<'a>(alloc: Global) -> Result<Command<'a>, AllocError>
    ensures { IfOk result (λ command. app_of command ≡ format_words) }
{
    let force = flag(alloc, "force", "Keeps nothing of an image that is there");
    let command = with_option(plain_format(alloc), sectors(alloc));
    with_option(with_option(command, atomic_sectors(alloc)), force)
}

fn show<'a>(alloc: Global) -> Result<Command<'a>, AllocError>
    ensures { IfOk result (λ command. app_of command ≡ show_words) }
{
    let schema = file(
        alloc,
        "schema",
        "With --dot: the schema file of the image, for names.\nNumbers without this",
    );
    let command = Command::new(alloc, "show").about(
        "Prints what an image file holds, and leaves the file as it is",
    );
    let command = with_option(Ok(command), path(alloc, "image", "The image file to read"));
    let dot = flag(
        alloc,
        "dot",
        "Prints its sections as a graph for Graphviz, and\nnothing else",
    );
    let command = with_option(command, dot);
    let command = with_option(command, last(alloc));
    with_option(command, schema)
}

fn dump<'a>(alloc: Global) -> Result<Command<'a>, AllocError>
    ensures { IfOk result (λ command. app_of command ≡ dump_words) }
{
    let schema = file(
        alloc,
        "schema",
        "The schema file of the image, for names. Without\nthis they are o0 and f0, and so on",
    );
    let command = Command::new(alloc, "dump").about(
        "Prints a schema file whose first values are those that 'recover'\nwould give, and leaves the image file as it is. 'format' of that file\nmakes an image with the same heap, and more fields if lines are added\nat its end. --cells and --slot print what is left of a damaged image,\nwhich needn't be the values of one moment",
    );
    let cells = flag(
        alloc,
        "cells",
        "Prints the values of the home cells: neither control\nslot nor log is read",
    );
    let command = with_option(Ok(command), path(alloc, "image", "The image file to read"));
    let command = with_option(command, schema);
    let command = with_option(command, cells);
    with_option(command, slot(alloc))
}

fn get<'a>(alloc: Global) -> Result<Command<'a>, AllocError>
    ensures { IfOk result (λ command. app_of command ≡ get_words) }
{
    let schema = file(
        alloc,
        "schema",
        "The schema file of the image, for names. Without\nthis they are f0, f1 and so on",
    );
    let command = Command::new(alloc, "get").about(
        "Prints the values that 'recover' would give to fields of an image\nfile, each as NAME=VALUE, and leaves the file as it is",
    );
    let command = with_option(Ok(command), path(alloc, "image", "The image file to read"));
    let command = with_option(command, schema);
    with_option(command, names(alloc, "NAME", "The fields, by their names"))
}

fn set<'a>(alloc: Global) -> Result<Command<'a>, AllocError>
    ensures { IfOk result (λ command. app_of command ≡ set_words) }
{
    let schema = file(
        alloc,
        "schema",
        "The schema file of the image, for names. Without\nthis they are f0, f1 and so on",
    );
    let command = Command::new(alloc, "set").about(
        "Recovers an image file, sets fields of it in a section of its own, and\nprints what 'run' prints for that section, once the section is\nacknowledged and the file is replaced",
    );
    let command = with_option(
        Ok(command),
        path(alloc, "image", "The image file to change"),
    );
    let command = with_option(command, schema);
    with_option(
        command,
        names(alloc, "NAME=VALUE", "The fields, and their new values"),
    )
}

fn recover<'a>(alloc: Global) -> Result<Command<'a>, AllocError>
    ensures { IfOk result (λ command. app_of command ≡ recover_words) }
{
    Command::new(alloc, "recover")
        .about(
            "Recovers an image file after a crash, and prints what was kept and\ndropped. If the report must not be lost, run 'show' first",
        )
        .arg(path(alloc, "image", "The image file to recover"))
}

fn upgrade<'a>(alloc: Global) -> Result<Command<'a>, AllocError>
    ensures { IfOk result (λ command. app_of command ≡ upgrade_words) }
{
    Command::new(alloc, "upgrade")
        .about(
            "Upgrades an image file of an older release in place: recovers it,\nand prints what was kept and dropped",
        )
        .arg(path(alloc, "image", "The image file to upgrade"))
}

fn drive<'a>(alloc: Global) -> Result<Command<'a>, AllocError>
    ensures { IfOk result (λ command. app_of command ≡ drive_words) }
{
    let image = file(
        alloc,
        "image",
        "The image file on which they work. It is made if it\nis missing or empty. In memory without this",
    );
    let command = Command::new(alloc, "drive").about(
        "Lets threads count on one heap, and prints how many sections of each\nare acknowledged, and what they have counted",
    );
    let command = with_option(Ok(command), workers(alloc));
    let command = with_option(command, rounds(alloc));
    let command = with_option(command, seconds(alloc));
    with_option(command, image)
}

fn run<'a>(alloc: Global) -> Result<Command<'a>, AllocError>
    ensures { IfOk result (λ command. app_of command ≡ run_words) }
{
    let image = file(
        alloc,
        "image",
        "The image file to play the script over. In memory\nwithout this",
    );
    let schema = file(
        alloc,
        "schema",
        "With --image: the schema file of the image, for\nnames. Without this they are o0 and f0, and so on",
    );
    let strict = flag(
        alloc,
        "strict",
        "Ends at the first refused line, with status 1. An\nimage stays as it was then",
    );
    let command = Command::new(alloc, "run").about(
        "Plays the script on standard input; the default without a command.\nWith --image it recovers an image file, plays the script over it and\nreplaces the file. Then it prints the report and the output of the\nscript. If that fails, it prints no output and leaves the file as it\nwas",
    );
    with_option(with_option(with_option(Ok(command), image), schema), strict)
}

// `heapctl` alone.
fn top<'a>(alloc: Global) -> Command<'a>
    ensures { app_of result ≡ top_words }
{
    Command::new(alloc, "heapctl")
        .version("0.1.0")
        .about("Plays threads on an object heap that survives crashes")
        .after_help(EXIT_STATUSES)
}

// The words that there are, with their help.
fn command<'a>(alloc: Global) -> Result<Command<'a>, AllocError>
    ensures { IfOk result (λ command. app_of command ≡ program) }
{
    let command = with_word(Ok(top(alloc)), run(alloc));
    let command = with_word(command, format(alloc));
    let command = with_word(command, show(alloc));
    let command = with_word(command, recover(alloc));
    let command = with_word(command, upgrade(alloc));
    let command = with_word(command, drive(alloc));
    let command = with_word(command, dump(alloc));
    let command = with_word(command, get(alloc));
    with_word(command, set(alloc))
}

/// Reads the words; the program's name comes first.
///
/// An `Err` holds the text to print: for wrong words what is wrong, for `--help` and `--version` what they ask for. Its
/// kind is `OutOfMemory` where there was no memory. `format` with one path for the image and for the schema, which would
/// be replaced, is an `ArgumentConflict`: paths are compared as they are written. `drive` with both `--rounds` and `--seconds` is one too,
/// `format` with sectors of other than 4,096 bytes or with both `--sectors` and `--atomic-sectors`, and an option that does nothing:
/// `--schema` of `run` without `--image`, and `--last` or `--schema` of `show` without `--dot`. So is `dump` with both `--cells` and
/// `--slot`, or with another slot than `a` and `b`.
pub fn read_words<'a>(alloc: Global, words: &'a [String]) -> Result<Asked<'a>, Error>
    // The program's words are taken exactly where clap's rules take them, no file is named twice, no run has two
    // lengths, an image lies in one way, on sectors of 4,096 bytes if on any, each option does something, and it is clear
    // which values are dumped. Other words are refused with the kind that those rules give.
    ensures exact { IsAnsweredBy (map (λ s. string_bytes s) words.entry.now) result }
    // What is asked for is what the options say.
    ensures asked { IfOk result (λ asked. AsksFor (subcommand_of program (map (λ s. string_bytes s) words.entry.now)) asked.words) }
    // The names of fields are those that stand behind the word.
    ensures names { IfOk result (λ asked. map (λ s. s.now) asked.names.items
        ≡ names_asked (subcommand_of program (map (λ s. string_bytes s) words.entry.now))) }
    ensures none { (name : List ℕ) → map (λ s. string_bytes s) words.entry.now ≡ name ∷ [] → IfErr result (λ e. kind_of e ≡ OutOfMemory) }
    ensures run { (name : List ℕ) → map (λ s. string_bytes s) words.entry.now ≡ name ∷ codes "run" ∷ [] → IfErr result (λ e. kind_of e ≡ OutOfMemory) }
{
    let command = command(alloc)?;
    let (asked, names) = match command.try_get_matches_from(words) {
        Ok(matches) => {
            let asked = asked_by(&matches);
            let names = names_in(alloc, &matches)?;
            drop(matches);
            (asked, names)
        }
        Err(answer) => return Err(answer),
    };
    if has_one_path(&asked) {
        return Err(conflict(alloc, ONE_PATH)?);
    }
    if has_both_lengths(&asked) {
        return Err(conflict(alloc, BOTH_LENGTHS)?);
    }
    if has_no_kind(&asked) {
        return Err(conflict(alloc, kind_text(&asked))?);
    }
    if has_idle_options(&asked) {
        return Err(conflict(alloc, idle_text(&asked))?);
    }
    if has_unclear_part(&asked) {
        return Err(conflict(alloc, UNCLEAR_PART)?);
    }
    Ok(Asked {
        words: asked,
        names,
    })
}

// The words ask for an image in the place of its own schema file.
fn has_one_path(words: &Words<'_>) -> bool
    ensures { IsTrue result ↔ HasOnePath words.now }
{
    match words {
        Words::Format { image, schema, .. } => *image == *schema,
        _ => false,
    }
}

// The words say how long workers work in two ways.
fn has_both_lengths(words: &Words<'_>) -> bool
    ensures { IsTrue result ↔ HasBothLengths words.now }
{
    match words {
        Words::Drive {
            rounds: Some(_),
            seconds: Some(_),
            ..
        } => true,
        _ => false,
    }
}

// The words ask for an image of no kind: on sectors of another size than 4,096 bytes, or of two kinds.
fn has_no_kind(words: &Words<'_>) -> bool
    ensures { IsTrue result ↔ HasNoKind words.now }
{
    match words {
        Words::Format {
            kind: Kind::OtherSectors | Kind::Both,
            ..
        } => true,
        _ => false,
    }
}

// What is told of them.
fn kind_text(words: &Words<'_>) -> &'static str {
    match words {
        Words::Format {
            kind: Kind::Both,
            ..
        } => BOTH_KINDS,
        _ => OTHER_SECTORS,
    }
}

// The words name an option that does nothing.
fn has_idle_options(words: &Words<'_>) -> bool
    ensures { IsTrue result ↔ HasIdleOptions words.now }
{
    match words {
        Words::Run {
            image: None,
            schema: Some(_),
            ..
        } => true,
        Words::Show { last: Some(_), .. } => true,
        Words::Show {
            last: None,
            schema: Some(_),
            ..
        } => true,
        _ => false,
    }
}

// The words don't say clearly which values are dumped.
fn has_unclear_part(words: &Words<'_>) -> bool
    ensures { IsTrue result ↔ HasUnclearPart words.now }
{
    match words {
        Words::Dump {
            part: Part::Unclear,
            ..
        } => true,
        _ => false,
    }
}

// What is told of options that do nothing.
fn idle_text(words: &Words<'_>) -> &'static str {
    match words {
        Words::Run { .. } => IDLE_SCHEMA,
        _ => IDLE_DOT,
    }
}

// What is answered to words of which each may stand alone.
fn conflict(alloc: Global, why: &'static str) -> Result<Error, AllocError>
    ensures { IfOk result (λ answer. kind_of answer ≡ ArgumentConflict) }
{
    let mut command = command(alloc)?;
    let answer = command.error(ErrorKind::ArgumentConflict, why);
    drop(command);
    answer
}

// What the words ask for in which this was found.
fn asked_by<'a>(matches: &ArgMatches<'a>) -> Words<'a>
    ensures { AsksFor (subcommand_rows_of matches.now) result }
{
    match matches.subcommand() {
        Some(("format", found)) => Words::Format {
            image: text_of(found, "image"),
            schema: text_of(found, "schema"),
            lanes: byte_of(found, "lanes"),
            capacity: number_of(found, "capacity"),
            kind: kind_in(found),
            is_forced: is_set(found, "force"),
        },
        Some(("show", found)) => {
            let image = text_of(found, "image");
            if is_set(found, "dot") {
                Words::Draw {
                    image,
                    last: last_of(found),
                    schema: found_text(found, "schema"),
                }
            } else {
                Words::Show {
                    image,
                    last: found_number(found, "last"),
                    schema: found_text(found, "schema"),
                }
            }
        }
        Some(("recover", found)) => Words::Recover {
            image: text_of(found, "image"),
        },
        Some(("upgrade", found)) => Words::Upgrade {
            image: text_of(found, "image"),
        },
        Some(("drive", found)) => Words::Drive {
            workers: byte_of(found, "workers"),
            rounds: found_number(found, "rounds"),
            seconds: found_number(found, "seconds"),
            image: found_text(found, "image"),
        },
        Some(("dump", found)) => Words::Dump {
            image: text_of(found, "image"),
            schema: found_text(found, "schema"),
            part: part_of(found),
        },
        Some(("get", found)) => Words::Get {
            image: text_of(found, "image"),
            schema: found_text(found, "schema"),
        },
        Some(("set", found)) => Words::Set {
            image: text_of(found, "image"),
            schema: found_text(found, "schema"),
        },
        Some(("run", found)) => Words::Run {
            image: found_text(found, "image"),
            schema: found_text(found, "schema"),
            is_strict: is_set(found, "strict"),
        },
        // No words mean that too.
        _ => Words::Run {
            image: None,
            schema: None,
            is_strict: false,
        },
    }
}

// The names of fields that were found behind a word.
fn names_in<'a>(alloc: Global, matches: &ArgMatches<'a>) -> Result<Vec<&'a str>, AllocError>
    ensures { IfOk result (λ names. map (λ s. s.now) names.items ≡ names_asked (subcommand_rows_of matches.now)) }
{
    match matches.subcommand() {
        Some((_, found)) => found_names(alloc, found),
        None => Ok(Vec::new(alloc)),
    }
}

fn found_names<'a>(alloc: Global, found: &ArgMatches<'a>) -> Result<Vec<&'a str>, AllocError>
    ensures { IfOk result (λ names. map (λ s. s.now) names.items ≡ unwrap_or (all_of (codes "names") (rows_of (found_of found.now))) []) }
{
    match found.get_strs("names") {
        Some(names) => names.to_vec(alloc),
        None => Ok(Vec::new(alloc)),
    }
}

// The option's text. Each option that is asked for by it has one.
fn text_of<'a>(found: &ArgMatches<'a>, name: &str) -> &'a str
    ensures { result.now ≡ unwrap_or (first_of name.now (rows_of (found_of found.now))) [] }
{
    match found.get_str(name) {
        Some(text) => text,
        None => "",
    }
}

// The option's text, where it was met.
fn found_text<'a>(found: &ArgMatches<'a>, name: &str) -> Option<&'a str>
    ensures { option_map (λ text. text.now) result ≡ first_of name.now (rows_of (found_of found.now)) }
{
    found.get_str(name)
}

// The option's number, which fits a byte. Each option that is asked for by it has one.
fn byte_of(found: &ArgMatches<'_>, name: &str) -> u8
    ensures { Reads 8 (one_of name.now (rows_of (found_of found.now))) result }
{
    found.get_one::<u8>(name).unwrap_or(0)
}

// The option's number.
fn number_of(found: &ArgMatches<'_>, name: &str) -> u32
    ensures { Reads 32 (one_of name.now (rows_of (found_of found.now))) result }
{
    found.get_one::<u32>(name).unwrap_or(0)
}

// The option's number, where it was met.
fn found_number(found: &ArgMatches<'_>, name: &str) -> Option<u32>
    ensures { MayRead 32 (one_of name.now (rows_of (found_of found.now))) result }
{
    found.get_one::<u32>(name)
}

// How many sections are drawn.
fn last_of(found: &ArgMatches<'_>) -> u32
    ensures { LastIs (one_of (codes "last") (rows_of (found_of found.now))) result }
{
    found_number(found, "last").unwrap_or(LAST)
}

// How the image is to lie.
fn kind_in(found: &ArgMatches<'_>) -> Kind
    ensures { AsksForKind (rows_of (found_of found.now)) result }
{
    let is_atomic = is_set(found, "atomic-sectors");
    match found_number(found, "sectors") {
        Some(bytes) => {
            if is_atomic {
                Kind::Both
            } else if bytes == 4096 {
                Kind::Placed
            } else {
                Kind::OtherSectors
            }
        }
        None => {
            if is_atomic {
                Kind::Journaled
            } else {
                Kind::Plain
            }
        }
    }
}

// Which values are dumped.
fn part_of(found: &ArgMatches<'_>) -> Part
    ensures { AsksForPart (rows_of (found_of found.now)) result }
{
    let is_cells = is_set(found, "cells");
    match found_text(found, "slot") {
        Some(slot) => {
            if is_cells {
                Part::Unclear
            } else {
                part_by(slot)
            }
        }
        None => { if is_cells { Part::Cells } else { Part::Heap } }
    }
}

// The values by the slot of this name.
fn part_by(slot: &str) -> Part
    ensures { NamesSlot slot.now result }
{
    match slot {
        "a" => Part::SlotA,
        "b" => Part::SlotB,
        _ => Part::Unclear,
    }
}

// The flag was met.
fn is_set(found: &ArgMatches<'_>, name: &str) -> bool
    ensures { IsTrue result ↔ IsSet name.now (rows_of (found_of found.now)) }
{
    found.get_one::<bool>(name).unwrap_or(false)
}
