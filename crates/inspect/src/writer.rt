//! Writing all of a text, or a beginning of it.
ghost use Rattle.std.specs.Prelude.{◌≡◌};
ghost use Rattle.inspect.specs.Written.{Writes};

use crate::error::WriteError;
use std::io::Write;

/// Writes all of the text. An interruption and a write of no bytes are faults.
pub(crate) fn put<W: Write>(writer: &mut W, text: &[u8]) -> Result<(), WriteError>
    ensures { Writes W.contents writer.old writer.new text.now result }
{
    let mut at = 0;
    while at < text.len() {
        match writer.write(&text[at..]) {
            Ok(0) => return Err(WriteError),
            Ok(count) => at += count,
            Err(_) => return Err(WriteError),
        }
    }
    Ok(())
}
