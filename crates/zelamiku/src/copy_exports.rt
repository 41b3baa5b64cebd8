//! What C calls to copy a heap's image.
ghost use Rattle.std.specs.Prelude.{◌≡◌, ◌≢◌};
ghost use Rattle.zelamiku.specs.HandleDoors.{AnswersBy};
ghost use Rattle.zelamiku.specs.CopyDoors.{CopiesAt};
ghost use Rattle.zelamiku.specs.declared.status.TheConstants.{OK};

use crate::slot::Slot;
use crate::{copy_calls, status};

/// Copies bytes of the heap's image, as the disk in memory has them.
#[unsafe(no_mangle)]
pub extern "C" fn zelamiku_copy(
    place: &mut Slot,
    at: u64,
    bytes: &mut [u8],
    copied: &mut u64,
) -> u32
    // A copy gets the bytes of the heap's image from a place on, as many as there are and the buffer has room for, and
    // tells how many. The heap stays as it was.
    ensures told { AnswersBy (CopiesAt at bytes.old bytes.new copied.new) place.old place.new result }
    // Where nothing is copied it is told that 0 bytes were.
    ensures refused { result ≢ OK → copied.new ≡ 0 }
    // Where nothing is copied the buffer stays as it was.
    ensures kept { result ≢ OK → bytes.new ≡ bytes.old }
{
    *copied = 0;
    if !place.is_open() {
        return status::NOTHING;
    }
    let (count, answer) = copy_calls::copy(place.handle.as_mut(), at, bytes);
    *copied = count;
    answer
}
