//! Writing what a line prints.
ghost use Rattle.std.specs.Prelude.{◌≡◌, OnOk, OnErr, IfErr};
ghost use Rattle.std.specs.Io.KnownBytes.{Appends};
ghost use Rattle.inspect.specs.Written.{AppendsPart};
ghost use Rattle.script_lines.specs.declared.error.ScriptErrorKind.TheVariants as kinds;

use script_lines::ScriptErrorKind;
use std::io::Write;

/// Writes all of the text. An interruption and a write of no bytes are faults; a part of the text is written then.
pub fn put<W: Write>(writer: &mut W, text: &[u8]) -> Result<(), ScriptErrorKind>
    ensures ok { OnOk result (Appends (W.contents writer.old) (W.contents writer.new) text.now) }
    ensures part { OnErr result (AppendsPart (W.contents writer.old) (W.contents writer.new) text.now) }
    ensures kind { IfErr result (λ kind. kind ≡ kinds.Write) }
{
    let mut at = 0;
    while at < text.len() {
        match writer.write(&text[at..]) {
            Ok(0) => return Err(ScriptErrorKind::Write),
            Ok(count) => at += count,
            Err(_) => return Err(ScriptErrorKind::Write),
        }
    }
    Ok(())
}
