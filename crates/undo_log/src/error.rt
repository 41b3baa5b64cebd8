//! Why a call on a lane's log has to stop.
ghost use Rattle.std.specs.Prelude.{◌≡◌};
ghost use Rattle.undo_log.specs.declared.error.LogError.TheVariants.{Fault};

use block_disk::Fault;
use heap_model::Lane;
use thiserror::Error;

/// Why a call on a lane's log has to stop.
#[derive(Clone, Copy, Debug, PartialEq, Eq, Error)]
pub enum LogError {
    /// A call of the device failed.
    #[error("fault")]
    Fault,
    /// The lane's live records and the new ones are more than its area holds. Nothing was written.
    #[error("log full")]
    LogFull { lane: Lane },
    /// The bytes at this place are no record, or they name an object or a field that the image doesn't have.
    #[error("bad record")]
    BadRecord { lane: Lane, place: u64 },
    /// There was no memory.
    #[error("no memory")]
    NoMemory,
}

impl From<Fault> for LogError {
    ghost from_gives = { λ _ e. e ≡ Fault };

    fn from(_fault: Fault) -> LogError {
        LogError::Fault
    }
}
