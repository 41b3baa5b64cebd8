//! What a script makes of an image.
ghost use Rattle.std.specs.Prelude.{◌≡◌, IfErr, IfOk, OnOk};
ghost use Rattle.script_lines.specs.Lines.{lines_of};
ghost use Rattle.script_images.specs.Playing.{IsDown, PlaysDown, PlaysOnAs, PlaysOver, RefusesAs, RefusesDown, RefusesToPlay};
ghost use Rattle.script_images.specs.Reasons.{told_of_strict};

use crate::error::{RunFault, StrictFault};
use crate::opening::{machine_over, recovered, refused};
use crate::reasons::told_in_memory;
use crate::stopping::image_left;
use crate::strict::run_strictly_on;
use guards::Schema;
use recover::RecoverError;
use script_lines::Ending;
use script_machine::Machine;
use script_play::run_on;
use std::alloc::Global;

/// What a script leaves of an image, and what it prints.
#[derive(Drop)]
pub struct Played {
    /// The bytes of the image that takes the old one's place.
    pub image: Vec<u8>,
    /// What is printed: the report on the recovery, and then what the lines print.
    pub text: Vec<u8>,
}

/// Recovers this image in memory, and plays lines over it that [`read_lines`](script_lines::read_lines) gave, with how the text
/// ended. Their names are those of the schema that is given, which has to be the image's, or else numbers: `o0`, `f0` and so on.
///
/// Refusals, in this order:
/// - `Named`: the image is refused by [`study`](recover::study); the schema that is given isn't the image's (`OtherSchema`); the image is
///   refused by recovery, as `OldVersion` or `Worn`. `NoMemory` comes at any time;
/// - `Script`: the run stopped at a line, as [`run_on`] says. What can't be printed to memory is want of memory;
/// - `Refused`: the run is strict, and a line was refused.
pub fn play_over(
    alloc: Global,
    image: &[u8],
    given: Option<Schema>,
    script: &[u8],
    ending: Ending,
    is_strict: bool,
) -> Result<Played, RunFault>
    // What a script leaves of an image is what the machine's device reads after its lines, played on from a recovery of
    // exactly this image. What is printed is the report of `recover`, and then the texts of the lines.
    ensures ok { IfOk result (λ played. PlaysOver given (lines_of script.now) ending is_strict image.now played.image.items played.text.items) }
    // A script over an image is refused for what study or recovery of exactly this image refuses, for another schema,
    // or at the first line that has a fault, isn't had or wants memory; a strict one at the first refused line too.
    ensures refused { IfErr result (RefusesToPlay given (lines_of script.now) ending is_strict image.now) }
{
    let mut machine = match machine_over(alloc, image, given) {
        Ok(machine) => machine,
        Err(fault) => return Err(RunFault::Named(fault)),
    };
    let played = play_down(alloc, &mut machine, script, ending, is_strict);
    drop(machine);
    played
}

// Recovers a machine that is down, and plays the lines on it.
fn play_down(
    alloc: Global,
    machine: &mut Machine,
    script: &[u8],
    ending: Ending,
    is_strict: bool,
) -> Result<Played, RunFault>
    requires { IsDown machine.old }
    ensures ok { IfOk result (λ played. PlaysDown machine.old (lines_of script.now) ending is_strict played.image.items played.text.items) }
    ensures refused { IfErr result (RefusesDown machine.old (lines_of script.now) ending is_strict) }
{
    let mut text = match recovered(alloc, machine) {
        Ok(text) => text,
        Err(fault) => return Err(RunFault::Named(fault)),
    };
    if let Err(fault) = run_as(alloc, machine, script, ending, is_strict, &mut text) {
        return Err(fault);
    }
    match image_left(alloc, machine) {
        Ok(image) => Ok(Played { image, text }),
        Err(_) => Err(RunFault::Named(refused(RecoverError::NoMemory))),
    }
}

// Plays the lines on a machine that runs, and writes to memory what they print.
fn run_as(
    alloc: Global,
    machine: &mut Machine,
    script: &[u8],
    ending: Ending,
    is_strict: bool,
    text: &mut Vec<u8>,
) -> Result<(), RunFault>
    ensures ok { OnOk result (PlaysOnAs is_strict machine.old (lines_of script.now) ending machine.new text.old.items text.new.items) }
    ensures refused { IfErr result (RefusesAs is_strict machine.old (lines_of script.now) ending) }
{
    if is_strict {
        return on_strict(run_strictly_on(alloc, machine, script, ending, text));
    }
    match run_on(alloc, machine, script, ending, text) {
        Ok(()) => Ok(()),
        Err(error) => Err(RunFault::Script(told_in_memory(error))),
    }
}

// How a strict run in memory ended.
fn on_strict(ended: Result<(), StrictFault>) -> Result<(), RunFault>
    ensures { result ≡ told_of_strict ended }
{
    match ended {
        Ok(()) => Ok(()),
        Err(StrictFault::Script(error)) => Err(RunFault::Script(told_in_memory(error))),
        Err(StrictFault::Refused(line, why)) => Err(RunFault::Refused(line, why)),
    }
}
