//! Plays a script from a reader to a writer.
ghost use Rattle.std.specs.Prelude.{◌≡◌, ◌≤◌, length, IfOk, IfErr};
ghost use Rattle.script_lines.specs.Lines.{lines_of};
ghost use Rattle.script_lines.specs.Endings.{OfScript};
ghost use Rattle.script_play.specs.Runs.{Ends, EndsOn, InPart, MayStop, PutsAll, PutsLine, PutsNothing, PutsPartOf, PutsUpTo, StopsAt};

use crate::texts::text;
use crate::writer::put;
use script_lines::{Ending, ScriptError, ScriptErrorKind, cut_line, read_line, read_lines};
use script_machine::Machine;
use std::alloc::Global;
use std::io::{Read, Write};

/// Reads a script to its end and plays it line by line. What a line prints is written before the next is played.
///
/// The run ends with an error at the first line that has a fault, that could not be read or whose output could not be
/// written, or for which there was no memory.
pub fn run_script<R: Read, W: Write>(
    alloc: Global,
    reader: &mut R,
    writer: &mut W,
) -> Result<(), ScriptError>
    // What a run prints is what its text means: one reading of the input, whose lines' texts are written in their
    // order. A run stops at the first line that has a fault, isn't had, isn't written or wants memory.
    ensures { OfScript (R.remaining reader.old) (R.remaining reader.new)
        (λ lines ending. Ends lines ending result (W.contents writer.old) (W.contents writer.new)) }
{
    let (lines, ending) = read_lines(alloc, reader);
    let mut machine = Machine::new(alloc);
    let ended = run_on(alloc, &mut machine, &lines, ending, writer);
    drop(machine);
    ended
}

/// Plays lines that [`read_lines`] gave, with how the text ended, on a machine in any state, as [`run_script`] does on one with
/// nothing declared. Where all are played the machine is as they leave it.
pub fn run_on<W: Write>(
    alloc: Global,
    machine: &mut Machine,
    lines: &[u8],
    ending: Ending,
    writer: &mut W,
) -> Result<(), ScriptError>
    ensures { EndsOn machine.old (lines_of lines.now) ending result machine.new (W.contents writer.old) (W.contents writer.new) }
{
    let played = play(alloc, machine, lines, writer)?;
    let kind = match ending {
        Ending::Whole => return Ok(()),
        Ending::TooLong => ScriptErrorKind::TooLong,
        Ending::Fault => ScriptErrorKind::Read,
        Ending::NoMemory => ScriptErrorKind::Memory,
    };
    Err(ScriptError {
        line: played + 1,
        kind,
    })
}

// Plays the lines, and says how many there were.
fn play<W: Write>(
    alloc: Global,
    machine: &mut Machine,
    lines: &[u8],
    writer: &mut W,
) -> Result<u64, ScriptError>
    ensures ok { PutsAll W.contents writer.old writer.new machine.old lines.now machine.new result }
    ensures count { IfOk result (λ played. played ≡ length (lines_of lines.now)) }
    ensures bound { IfOk result (λ played. played ≤ length lines.now) }
    ensures fault { IfErr result (λ e. StopsAt (lines_of lines.now) e) }
    ensures before { PutsUpTo W.contents writer.old writer.new machine.old lines.now result }
    ensures part { PutsPartOf W.contents writer.old writer.new machine.old lines.now result }
{
    let mut rest = lines;
    let mut played = 0u64;
    while !rest.is_empty() {
        let (line, others) = cut_line(rest);
        if let Err(kind) = play_line(alloc, machine, line, writer) {
            return Err(ScriptError {
                line: played + 1,
                kind,
            });
        }
        rest = others;
        played += 1;
    }
    Ok(played)
}

fn play_line<W: Write>(
    alloc: Global,
    machine: &mut Machine,
    line: &[u8],
    writer: &mut W,
) -> Result<(), ScriptErrorKind>
    ensures ok { PutsLine W.contents writer.old writer.new machine.old line.now machine.new result }
    ensures fault { IfErr result (λ kind. MayStop line.now kind) }
    ensures before { PutsNothing W.contents writer.old writer.new result }
    ensures part { InPart W.contents writer.old writer.new machine.old line.now machine.new result }
{
    let Some(command) = read_line(line)? else {
        return Ok(());
    };
    let Ok(answer) = machine.step(alloc, &command) else {
        return Err(ScriptErrorKind::Memory);
    };
    let Ok(printed) = text(alloc, &answer) else {
        drop(answer);
        return Err(ScriptErrorKind::Memory);
    };
    drop(answer);
    put(writer, &printed)
}
