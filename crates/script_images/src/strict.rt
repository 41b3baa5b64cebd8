//! Playing lines up to the first that is refused.
ghost use Rattle.std.specs.Prelude.{◌≡◌, ◌≢◌, ◌≤◌, length, IfErr, IfOk};
ghost use Rattle.script_lines.specs.Endings.{OfScript};
ghost use Rattle.script_lines.specs.Lines.{lines_of};
ghost use Rattle.script_lines.specs.declared.error.ScriptErrorKind.TheVariants as kinds;
ghost use Rattle.script_play.specs.Runs.{MayStop, PlaysInPart, PrintsNothing};
ghost use Rattle.script_images.specs.Strict.{EndsStrictly, EndsStrictlyOn, IsAnswered, StopsStrictly, TakesOn};

use crate::error::StrictFault;
use crate::reasons::refusal_in;
use script_lines::{Ending, ScriptError, ScriptErrorKind, cut_line, read_line, read_lines};
use script_machine::{Answer, Machine, Refusal};
use script_play::{put, text};
use std::alloc::{AllocError, Global};
use std::io::{Read, Write};

/// Reads a script to its end and plays it line by line, up to the first line that is refused: what the program's word `run` does with
/// `--strict`. What a line prints is written before the next is played, the refused one's too.
pub fn run_strictly<R: Read, W: Write>(
    alloc: Global,
    reader: &mut R,
    writer: &mut W,
) -> Result<(), StrictFault>
    // A strict run plays the lines up to the first that is refused, and the text of that line is the last that is
    // written. Any other run ends as it does without being strict, with no line refused.
    ensures { OfScript (R.remaining reader.old) (R.remaining reader.new)
        (λ lines ending. EndsStrictly lines ending result (W.contents writer.old) (W.contents writer.new)) }
{
    let (lines, ending) = read_lines(alloc, reader);
    let mut machine = Machine::new(alloc);
    let ended = run_strictly_on(alloc, &mut machine, &lines, ending, writer);
    drop(machine);
    ended
}

/// Plays lines that [`read_lines`] gave, with how the text ended, on a machine in any state, as [`run_strictly`] does on one with
/// nothing declared.
pub(crate) fn run_strictly_on<W: Write>(
    alloc: Global,
    machine: &mut Machine,
    lines: &[u8],
    ending: Ending,
    writer: &mut W,
) -> Result<(), StrictFault>
    ensures { EndsStrictlyOn machine.old (lines_of lines.now) ending result machine.new
        (W.contents writer.old) (W.contents writer.new) }
{
    let played = match take_lines(alloc, machine, lines, writer) {
        Ok(played) => played,
        Err(fault) => return Err(fault),
    };
    let kind = match ending {
        Ending::Whole => return Ok(()),
        Ending::TooLong => ScriptErrorKind::TooLong,
        Ending::Fault => ScriptErrorKind::Read,
        Ending::NoMemory => ScriptErrorKind::Memory,
    };
    Err(StrictFault::Script(ScriptError {
        line: played + 1,
        kind,
    }))
}

// Plays the lines, and says how many there were.
fn take_lines<W: Write>(
    alloc: Global,
    machine: &mut Machine,
    lines: &[u8],
    writer: &mut W,
) -> Result<u64, StrictFault>
    ensures ok { IfOk result (λ played. TakesOn machine.old (lines_of lines.now) machine.new (W.contents writer.old) (W.contents writer.new)) }
    ensures count { IfOk result (λ played. played ≡ length (lines_of lines.now)) }
    ensures bound { IfOk result (λ played. played ≤ length lines.now) }
    ensures stopped { IfErr result (StopsStrictly machine.old (lines_of lines.now) (W.contents writer.old) (W.contents writer.new)) }
{
    let mut rest = lines;
    let mut played = 0u64;
    while !rest.is_empty() {
        let (line, others) = cut_line(rest);
        match take_line(alloc, machine, line, writer) {
            Ok(None) => {}
            Ok(Some(why)) => return Err(StrictFault::Refused(played + 1, why)),
            Err(kind) => {
                return Err(StrictFault::Script(ScriptError {
                    line: played + 1,
                    kind,
                }));
            }
        }
        rest = others;
        played += 1;
    }
    Ok(played)
}

// Plays a line, and says why it was refused, if it was.
fn take_line<W: Write>(
    alloc: Global,
    machine: &mut Machine,
    line: &[u8],
    writer: &mut W,
) -> Result<Option<Refusal>, ScriptErrorKind>
    ensures ok { IfOk result (IsAnswered machine.old line.now machine.new (W.contents writer.old) (W.contents writer.new)) }
    ensures fault { IfErr result (λ kind. MayStop line.now kind) }
    ensures before { IfErr result (λ kind. kind ≢ kinds.Write → PrintsNothing (W.contents writer.old) (W.contents writer.new)) }
    ensures part { IfErr result (λ kind. kind ≡ kinds.Write → PlaysInPart machine.old line.now machine.new (W.contents writer.old) (W.contents writer.new)) }
{
    let Some(command) = read_line(line)? else {
        return Ok(None);
    };
    let Ok(answer) = machine.step(alloc, &command) else {
        return Err(ScriptErrorKind::Memory);
    };
    let why = refusal_in(&answer);
    let Ok(printed) = text(alloc, &answer) else {
        drop(answer);
        return Err(ScriptErrorKind::Memory);
    };
    drop(answer);
    put(writer, &printed)?;
    Ok(why)
}

/// The line that a refused line prints, without its end.
pub fn refusal_text(alloc: Global, why: Refusal) -> Result<String, AllocError> {
    let printed = text(alloc, &Answer::Refused(why))?;
    let told = match str::from_utf8(&printed) {
        Ok(told) => String::from_str(alloc, told.trim_end()),
        Err(_) => Ok(String::new(alloc)),
    };
    drop(printed);
    told
}
