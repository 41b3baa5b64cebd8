//! Reading the text of a script.
ghost use Rattle.std.specs.Prelude.{◌≡◌, []};
ghost use Rattle.script_lines.specs.Endings.{Took, AreEnded, AreToPlay, Reads};

use crate::lines::ended_len;
use std::alloc::Global;
use std::io::Read;

/// How many bytes a text may have, with the ends of its lines (docs/SCRIPTS.md, "Text").
const LONGEST_TEXT: usize = 1_048_576;

/// How many bytes are asked of the reader at once.
const BLOCK: usize = 4096;

/// How a text ended.
#[derive(Clone, Copy, Debug, PartialEq, Eq)]
pub enum Ending {
    /// The reader has no more.
    Whole,
    /// The text is too long.
    TooLong,
    /// The reader failed, or was interrupted.
    Fault,
    /// There was no memory for the rest.
    NoMemory,
}

/// The lines to be played, as they were read, and how the text ended. Where it didn't end by itself, its last line is
/// left out: the one that has the first byte past the text's length, or whose bytes could not be had.
pub fn read_lines<R: Read>(alloc: Global, reader: &mut R) -> (Vec<u8>, Ending)
    // A text is read to its end, or to what stops it, line by line.
    ensures { Reads (R.remaining reader.old) (R.remaining reader.new) result.0.items result.1 }
{
    let mut text = Vec::new(alloc);
    let ending = take_text(reader, &mut text);
    keep_lines(&mut text, ending);
    (text, ending)
}

// Reads to the end, or to the first byte past the longest text.
fn take_text<R: Read>(reader: &mut R, text: &mut Vec<u8>) -> Ending
    requires { text.old.items ≡ [] }
    ensures { Took (R.remaining reader.old) (R.remaining reader.new) text.new.items result }
{
    let mut block = [0u8; BLOCK];
    while text.len() <= LONGEST_TEXT {
        let Ok(count) = reader.read(&mut block) else {
            return Ending::Fault;
        };
        if count == 0 {
            return Ending::Whole;
        }
        if text.extend_from_slice(&block[..count]).is_err() {
            return Ending::NoMemory;
        }
    }
    Ending::TooLong
}

// Keeps of a text that ended so the lines to be played.
fn keep_lines(text: &mut Vec<u8>, ending: Ending)
    ensures { AreToPlay text.old.items text.new.items ending }
{
    match ending {
        Ending::Whole => (),
        Ending::TooLong => {
            text.truncate(LONGEST_TEXT);
            keep_ended(text);
        }
        Ending::Fault | Ending::NoMemory => keep_ended(text),
    }
}

fn keep_ended(text: &mut Vec<u8>)
    ensures { AreEnded text.old.items text.new.items }
{
    let ended = ended_len(text);
    text.truncate(ended);
}
