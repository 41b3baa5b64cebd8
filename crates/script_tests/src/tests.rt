//! Runs of scripts: where they end, and readers and writers that fail.
mod answers;
mod crashes;
mod forms;
mod plays;
mod trims;

use script_lines::{ScriptError, ScriptErrorKind};
use script_play::run_script;
use std::alloc::Global;
use std::io;
use std::io::{Read, Write};

/// Gives three bytes a call at most, and fails once where it stands at `fault`.
#[derive(Drop)]
pub struct Source<'a> {
    /// What is left.
    pub bytes: &'a [u8],
    /// How much is left where it fails, and how.
    pub fault: Option<(usize, io::ErrorKind)>,
}

impl<'a> Read for Source<'a> {
    fn read(&mut self, buf: &mut [u8]) -> io::Result<usize> {
        if let Some((left, kind)) = self.fault {
            if left == self.bytes.len() {
                self.fault = None;
                return Err(io::Error::from(kind));
            }
        }
        let count = self.bytes.len().min(buf.len()).min(3);
        buf[..count].copy_from_slice(&self.bytes[..count]);
        self.bytes = &self.bytes[count..];
        Ok(count)
    }
}

// Takes two bytes a call at most; the call of this number, counted from 1, takes none or fails.
#[derive(Drop)]
struct Sink {
    taken: Vec<u8>,
    calls: u64,
    fault: Option<(u64, Option<io::ErrorKind>)>,
}

impl Write for Sink {
    fn write(&mut self, buf: &[u8]) -> io::Result<usize> {
        self.calls = self.calls.saturating_add(1);
        if let Some((call, kind)) = self.fault {
            if call == self.calls {
                return match kind {
                    Some(kind) => Err(io::Error::from(kind)),
                    None => Ok(0),
                };
            }
        }
        let count = buf.len().min(2);
        self.taken.extend_from_slice(&buf[..count])?;
        Ok(count)
    }

    fn flush(&mut self) -> io::Result<()> {
        Ok(())
    }
}

// Where a run stops, and why; nothing where it is played to its end.
type Stop = Option<(u64, ScriptErrorKind)>;

fn stop_of(run: Result<(), ScriptError>) -> Stop {
    match run {
        Ok(()) => None,
        Err(error) => Some((error.line, error.kind)),
    }
}

// Whether the script that this reader gives prints this with such a fault of the writer, and its run stops so.
fn is_run(
    alloc: Global,
    mut reader: Source<'_>,
    fault: Option<(u64, Option<io::ErrorKind>)>,
    printed: &[u8],
    stop: Stop,
) -> bool {
    let mut writer = Sink {
        taken: Vec::new(alloc),
        calls: 0,
        fault,
    };
    let run = run_script(alloc, &mut reader, &mut writer);
    stop_of(run) == stop && writer.taken.as_slice() == printed
}

// Whether the script prints this, and its run stops so.
fn is_played(alloc: Global, script: &[u8], printed: &[u8], stop: Stop) -> bool {
    let reader = Source {
        bytes: script,
        fault: None,
    };
    is_run(alloc, reader, None, printed, stop)
}

// A script that is played to its end, and what it prints.
type Play = (&'static [u8], &'static [u8]);

// The first of these that isn't played so.
fn first_unplayed(alloc: Global, plays: &[Play]) -> Option<usize> {
    for (place, (script, printed)) in plays.iter().enumerate() {
        if !is_played(alloc, script, printed, None) {
            return Some(place);
        }
    }
    None
}

const REFUSED: &[u8] = b"refused state\n";

const NONE: &[u8] = b"";

// A script, what it prints, and where its run stops. The second is the example of a line of no form.
const ENDS: &[(&[u8], &[u8], Stop)] = &[
    (NONE, NONE, None),
    (
        b"object a\nfrob\n",
        NONE,
        Some((2, ScriptErrorKind::Syntax)),
    ),
    (b"object a\r\n\r\n#b\r\nheap", REFUSED, None),
    (b"log\rheap\n", NONE, Some((1, ScriptErrorKind::Syntax))),
    (b"heap\r\r\n", NONE, Some((1, ScriptErrorKind::Syntax))),
    (b"heap\r", NONE, Some((1, ScriptErrorKind::Syntax))),
    (b" \n", NONE, Some((1, ScriptErrorKind::Syntax))),
    (
        b"heap\n# \xC3\xA9\nheap\n",
        REFUSED,
        Some((2, ScriptErrorKind::NotText)),
    ),
    (b"trim\n", REFUSED, None),
    (b"object a\nobject a\n", b"refused double name\n", None),
];

// The first of these that ends otherwise.
fn first_other(alloc: Global) -> Option<usize> {
    for (place, (script, printed, stop)) in ENDS.iter().enumerate() {
        if !is_played(alloc, script, printed, *stop) {
            return Some(place);
        }
    }
    None
}

#[test]
fn lines_end_as_documented(rt: HostRuntime) {
    assert!(rt; first_other(rt.alloc()).is_none());
}

// How long a comment is, the bytes behind it, what is printed, and where the run stops. On one line, too long comes first.
const LENGTHS: &[(usize, &[u8], &[u8], Stop)] = &[
    (200, b"\r\nheap", REFUSED, None),
    (201, b"\nheap", NONE, Some((1, ScriptErrorKind::TooLong))),
    (200, b"\r", NONE, Some((1, ScriptErrorKind::TooLong))),
    (200, b"\xFF", NONE, Some((1, ScriptErrorKind::TooLong))),
];

// A comment of this length, and behind it these bytes.
fn comment(alloc: Global, len: usize, end: &[u8]) -> Option<Vec<u8>> {
    let mut text = vec![in alloc; b'#'; len].ok()?;
    text.extend_from_slice(end).ok()?;
    Some(text)
}

// The first of these that ends otherwise.
fn first_other_length(alloc: Global) -> Option<usize> {
    for (place, (len, end, printed, stop)) in LENGTHS.iter().enumerate() {
        let is_so = match comment(alloc, *len, end) {
            Some(text) => is_played(alloc, &text, printed, *stop),
            None => false,
        };
        if !is_so {
            return Some(place);
        }
    }
    None
}

#[test]
fn lengths_are_kept(rt: HostRuntime) {
    assert!(rt; first_other_length(rt.alloc()).is_none());
}

// 8192 lines of 128 bytes with their ends are the longest text.
fn longest(alloc: Global) -> Option<Vec<u8>> {
    let mut text = Vec::new(alloc);
    for _ in 0..8192 {
        text.extend_from_slice(&[b'#'; 127]).ok()?;
        text.push(b'\n').ok()?;
    }
    Some(text)
}

// Its length, and whether it is played, and with a line more is refused behind its last line.
fn told_of_longest(alloc: Global) -> Option<(usize, [bool; 2])> {
    let mut text = longest(alloc)?;
    let len = text.len();
    let whole = is_played(alloc, &text, NONE, None);
    text.push(b'\n').ok()?;
    let behind = is_played(alloc, &text, NONE, Some((8193, ScriptErrorKind::TooLong)));
    Some((len, [whole, behind]))
}

#[test]
fn the_longest_text_is_played(rt: HostRuntime) {
    assert!(rt; told_of_longest(rt.alloc()) == Some((1_048_576, [true; 2])));
}

// How much is left where a reader fails, how, what is printed, and in which line the run stops.
const BROKEN_OFF: &[(usize, io::ErrorKind, &[u8], u64)] = &[
    (4, io::ErrorKind::Interrupted, REFUSED, 2),
    (7, io::ErrorKind::BrokenPipe, NONE, 1),
    (
        0,
        io::ErrorKind::BrokenPipe,
        b"refused state\nrefused state\n",
        3,
    ),
];

// The first of these that ends otherwise.
fn first_other_reader(alloc: Global) -> Option<usize> {
    for (place, (left, kind, printed, line)) in BROKEN_OFF.iter().enumerate() {
        let reader = Source {
            bytes: b"heap\nhome\n",
            fault: Some((*left, *kind)),
        };
        if !is_run(
            alloc,
            reader,
            None,
            printed,
            Some((*line, ScriptErrorKind::Read)),
        ) {
            return Some(place);
        }
    }
    None
}

#[test]
fn a_reader_that_fails_ends_the_run(rt: HostRuntime) {
    assert!(rt; first_other_reader(rt.alloc()).is_none());
}

// The call in which a writer fails, how, what is printed, and in which line the run stops.
const CUT_OFF: &[(u64, Option<io::ErrorKind>, &[u8], u64)] = &[
    (3, Some(io::ErrorKind::BrokenPipe), b"refu", 1),
    (1, None, NONE, 1),
    (8, Some(io::ErrorKind::Interrupted), REFUSED, 3),
];

// The first of these that ends otherwise.
fn first_other_writer(alloc: Global) -> Option<usize> {
    for (place, (call, kind, printed, line)) in CUT_OFF.iter().enumerate() {
        let reader = Source {
            bytes: b"heap\n#\nhome\nfrob\n",
            fault: None,
        };
        let fault = Some((*call, *kind));
        if !is_run(
            alloc,
            reader,
            fault,
            printed,
            Some((*line, ScriptErrorKind::Write)),
        ) {
            return Some(place);
        }
    }
    None
}

#[test]
fn a_writer_that_fails_ends_the_run(rt: HostRuntime) {
    assert!(rt; first_other_writer(rt.alloc()).is_none());
}

// Whether the error prints so.
fn is_printed_so(alloc: Global, error: ScriptError, text: &str) -> Option<bool> {
    let shown = format!(in alloc; "{error}").ok()?;
    Some(shown.as_str() == text)
}

#[test]
fn errors_print_as_documented(rt: HostRuntime) {
    let error = ScriptError {
        line: 2,
        kind: ScriptErrorKind::NotText,
    };
    assert!(rt; is_printed_so(rt.alloc(), error, "line 2: not text") == Some(true));
}
