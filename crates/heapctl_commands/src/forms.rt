//! The forms of lines, and what is told of a line that has none: its text, and the form that comes closest.
ghost use Rattle.std.specs.Prelude.{◌≤◌, length};

use std::alloc::{AllocError, Global};
use std::str;
use strsim::levenshtein;

// A form, behind the word by which it is known.
type Form = (&'static str, &'static str);

/// Those of a schema file's lines.
pub(crate) const DECLARATIONS: &[Form] = &[
    ("object", "object NAME"),
    ("field", "field NAME OWNER GUARD VALUE"),
    ("transient", "transient NAME OWNER GUARD VALUE"),
];

/// Those of a script's (docs/SCRIPTS.md, "Lines").
pub(crate) const LINES: &[Form] = &[
    ("object", "object NAME"),
    ("field", "field NAME OWNER GUARD FIRST"),
    ("transient", "transient NAME OWNER GUARD FIRST"),
    ("format", "format LANES CAPACITY"),
    ("enter", "tK enter NAME"),
    ("exit", "tK exit NAME"),
    ("load", "tK load NAME"),
    ("store", "tK store NAME V"),
    ("wait", "tK wait NAME"),
    ("resume", "tK resume"),
    ("notify", "tK notify NAME"),
    ("notifyall", "tK notifyall NAME"),
    ("log", "log"),
    ("home", "home"),
    ("settle", "settle"),
    ("trim", "trim"),
    ("heap", "heap"),
    ("crash", "crash FILL, or crash FILL back N"),
    ("show", "show"),
    ("recover", "recover"),
    ("upgrade", "upgrade"),
];

// More edits make another word.
const MOST_EDITS: usize = 2;

// How many characters of a line are shown.
const SHOWN: usize = 80;

/// What is told of the line of this number, counted from 1, of a text. `None`: the text has no such line, or there is no memory.
pub(crate) fn text_of_line(
    alloc: Global,
    text: &[u8],
    number: u64,
    forms: &[Form],
) -> Option<String> {
    if text.is_empty() {
        return None;
    }
    let line = str::from_utf8(line_in(text, number)?).ok()?;
    let shown = shown(alloc, line).ok()?;
    let told = match closest(alloc, line, forms) {
        Some(form) => format!(in alloc;
            "that line is '{shown}'; the form that comes closest is '{form}'"
        ),
        None => format!(in alloc; "that line is '{shown}', and no form comes close"),
    };
    drop(shown);
    told.ok()
}

// The line of this number, without its end.
fn line_in(text: &[u8], number: u64) -> Option<&[u8]> {
    let mut rest = text;
    for _ in 1..number {
        let (_, end) = rest.split_at(end_of(rest));
        match end.split_first() {
            Some((_, later)) => rest = later,
            None => return None,
        }
    }
    let line = &rest[..end_of(rest)];
    match line.strip_suffix(b"\r") {
        Some(line) => Some(line),
        None => Some(line),
    }
}

// Where the first line of these ends.
fn end_of(bytes: &[u8]) -> usize
    ensures { result ≤ length bytes.now }
{
    match bytes.iter().position(|byte| *byte == b'\n') {
        Some(end) => end,
        None => bytes.len(),
    }
}

// A beginning of the line, in which a terminal sees no command.
fn shown(alloc: Global, line: &str) -> Result<String, AllocError> {
    let mut text = String::new(alloc);
    for letter in line.chars().take(SHOWN) {
        text.push(if letter.is_control() { '?' } else { letter })?;
    }
    if line.len() > SHOWN {
        text.push_str("..")?;
    }
    Ok(text)
}

// The form whose word has the fewest edits from one of the line's first two.
fn closest(alloc: Global, line: &str, forms: &[Form]) -> Option<&'static str> {
    let mut found = None;
    let mut least = MOST_EDITS + 1;
    for form in forms {
        let (word, text) = *form;
        let edits = edits_to(alloc, line, word);
        if edits < least {
            least = edits;
            found = Some(text);
        }
    }
    found
}

fn edits_to(alloc: Global, line: &str, word: &str) -> usize {
    let mut least = usize::MAX;
    for part in line.split(' ').take(2) {
        if let Ok(edits) = levenshtein(alloc, part, word) {
            least = least.min(edits);
        }
    }
    least
}
