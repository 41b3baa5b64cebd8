//! Telling what workers have done.
ghost use Rattle.std.specs.Prelude.{◌≡◌, IfErr, OnErr, OnOk};
ghost use Rattle.std.specs.Io.KnownBytes.{Appends};
ghost use Rattle.inspect.specs.Written.{AppendsPart};
ghost use Rattle.heapctl_commands.specs.DrivenText.{driven_text};

use inspect::{WriteError, put_list};
use std::io::Write;
use thread_drive::Driven;

/// Writes how many sections of each lane are acknowledged, and the values of the heap: a line each. After an error a beginning of
/// them is written.
pub fn write_driven<W: Write>(driven: &Driven, writer: &mut W) -> Result<(), WriteError>
    ensures ok { OnOk result
        (Appends (W.contents writer.old) (W.contents writer.new) (driven_text driven.now)) }
    ensures part { OnErr result
        (AppendsPart (W.contents writer.old) (W.contents writer.new) (driven_text driven.now)) }
{
    put_list(writer, "acknowledged", &driven.acknowledged)?;
    put_list(writer, "heap", &driven.heap)
}
