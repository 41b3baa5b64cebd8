//! How the machine tells of what the declarations, the monitors, the store and recovery refuse.
ghost use Rattle.std.specs.Prelude.{◌≡◌, Ok};
ghost use Rattle.script_machine.specs.Agreement.{IsForCall, IsForRecord};
ghost use Rattle.script_machine.specs.Refusals.{told_of_declared, told_of_monitor, told_of_recovery, told_of_store};

use crate::answer::{Answer, Refusal};
use durable::StoreError;
use recover::RecoverError;
use script_declarations::{DeclarationRefusal, Declared};
use script_monitors::MonitorRefusal;
use std::alloc::AllocError;

impl From<MonitorRefusal> for Refusal {
    ghost from_gives = { λ why told. told ≡ told_of_monitor why };

    fn from(why: MonitorRefusal) -> Refusal {
        match why {
            MonitorRefusal::Held => Refusal::Held,
            MonitorRefusal::NotHeld => Refusal::NotHeld,
            MonitorRefusal::Worn => Refusal::Worn,
            MonitorRefusal::NotWaiting => Refusal::NotWaiting,
            MonitorRefusal::InSet => Refusal::InSet,
        }
    }
}

/// Why the store refuses the record of an event that the monitors allow.
pub(crate) fn refused_record(why: StoreError) -> Refusal
    requires { IsForRecord why }
    ensures { told_of_store why ≡ Ok result }
{
    match why {
        StoreError::Worn => Refusal::Worn,
        StoreError::TooLong => Refusal::TooLong,
        StoreError::LogFull => Refusal::LogFull,
        StoreError::Failed
        | StoreError::BadLane
        | StoreError::BadId
        | StoreError::NotNext
        | StoreError::Unwritten
        | StoreError::Fault
        | StoreError::Unfinished => unreachable!(),
    }
}

/// Why the store refuses to log, to settle or to trim. A fault of the device in memory is want of memory, which is no refusal.
pub(crate) fn refused_call(why: StoreError) -> Result<Refusal, AllocError>
    requires { IsForCall why }
    ensures { result ≡ told_of_store why }
{
    match why {
        StoreError::Worn => Ok(Refusal::Worn),
        StoreError::Unwritten => Ok(Refusal::Unwritten),
        StoreError::Fault => Err(AllocError),
        StoreError::Failed
        | StoreError::BadLane
        | StoreError::BadId
        | StoreError::NotNext
        | StoreError::TooLong
        | StoreError::LogFull
        | StoreError::Unfinished => unreachable!(),
    }
}

/// Why an image isn't recovered. A fault of the device in memory is want of memory, which is no refusal.
pub(crate) fn refused_recovery(why: RecoverError) -> Result<Refusal, AllocError>
    ensures { result ≡ told_of_recovery why }
{
    match why {
        RecoverError::NotFormatted => Ok(Refusal::NotFormatted),
        RecoverError::BadHeader => Ok(Refusal::BadHeader),
        RecoverError::TooSmall => Ok(Refusal::TooSmall),
        RecoverError::NoControl => Ok(Refusal::NoControl),
        RecoverError::BadControl => Ok(Refusal::BadControl),
        RecoverError::OldVersion => Ok(Refusal::OldVersion),
        RecoverError::Worn => Ok(Refusal::Worn),
        RecoverError::BadRecord { lane, place } => Ok(Refusal::BadRecord { lane, place }),
        RecoverError::IllegalLog { lane, place } => Ok(Refusal::IllegalLog { lane, place }),
        RecoverError::Fault | RecoverError::NoMemory => Err(AllocError),
    }
}

/// What is answered to a declaration: nothing, or why it is refused.
pub(crate) fn answered(said: Declared) -> Answer
    ensures { result ≡ told_of_declared said }
{
    match said {
        Declared::Added => Answer::Silent,
        Declared::Refused(DeclarationRefusal::Empty) => Answer::Refused(Refusal::Empty),
        Declared::Refused(DeclarationRefusal::DoubleName) => Answer::Refused(Refusal::DoubleName),
        Declared::Refused(DeclarationRefusal::Unknown) => Answer::Refused(Refusal::Unknown),
        Declared::Refused(DeclarationRefusal::TooMany) => Answer::Refused(Refusal::TooMany),
    }
}
