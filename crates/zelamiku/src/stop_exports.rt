//! What C calls where a call of the device couldn't be made.
ghost use Rattle.zelamiku.specs.HandleDoors.{AnswersBy};
ghost use Rattle.zelamiku.specs.StopDoors.{FailsCallAt};

use crate::slot::Slot;
use crate::{status, stop_calls};

/// The host couldn't make the call of the device that it was told.
#[unsafe(no_mangle)]
pub extern "C" fn zelamiku_call_failed(place: &mut Slot) -> u32
    // After a failed write what the handle has stays, to be told again. After a failed sync the word of the
    // heap's sessions is written, and each later call of the heap answers `STOPPED`.
    ensures { AnswersBy FailsCallAt place.old place.new result }
{
    if !place.is_open() {
        return status::NOTHING;
    }
    stop_calls::call_failed(place.handle.as_mut())
}
