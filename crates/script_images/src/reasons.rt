//! Why recovery refused an image, told after the line that was refused; and why a line could not be written to memory.
ghost use Rattle.std.specs.Prelude.{◌≡◌};
ghost use Rattle.script_images.specs.Reasons.{in_memory, kind_in_memory, reason_for, refusal_of};

use recover::RecoverError;
use script_lines::{ScriptError, ScriptErrorKind};
use script_machine::{Answer, Refusal};

/// Why the line was refused, if it was.
pub(crate) fn refusal_in(answer: &Answer) -> Option<Refusal>
    ensures { result ≡ refusal_of answer.now }
{
    match answer {
        Answer::Refused(why) => Some(*why),
        _ => None,
    }
}

/// Why recovery refuses an image, where the line `recover` tells this refusal of it.
pub(crate) fn reason_of(why: &Refusal) -> RecoverError
    ensures { result ≡ reason_for why.now }
{
    match why {
        Refusal::NotFormatted => RecoverError::NotFormatted,
        Refusal::BadHeader => RecoverError::BadHeader,
        Refusal::TooSmall => RecoverError::TooSmall,
        Refusal::NoControl => RecoverError::NoControl,
        Refusal::BadControl => RecoverError::BadControl,
        Refusal::OldVersion => RecoverError::OldVersion,
        Refusal::Worn => RecoverError::Worn,
        Refusal::BadRecord { lane, place } => RecoverError::BadRecord {
            lane: *lane,
            place: *place,
        },
        Refusal::IllegalLog { lane, place } => RecoverError::IllegalLog {
            lane: *lane,
            place: *place,
        },
        // The others are none of recovery's.
        _ => RecoverError::Fault,
    }
}

/// The error of a run whose writer is memory: that can't be written is want of memory.
pub(crate) fn told_in_memory(error: ScriptError) -> ScriptError
    ensures { result ≡ in_memory error }
{
    ScriptError {
        line: error.line,
        kind: kind_told(error.kind),
    }
}

fn kind_told(kind: ScriptErrorKind) -> ScriptErrorKind
    ensures { result ≡ kind_in_memory kind }
{
    match kind {
        ScriptErrorKind::Write => ScriptErrorKind::Memory,
        other => other,
    }
}
