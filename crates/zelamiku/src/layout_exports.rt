//! What C calls to be told what an image and a heap have, in place of reading bytes.
ghost use Rattle.std.specs.Prelude.{◌≡◌, ◌≢◌};
ghost use Rattle.zelamiku.specs.HandleDoors.{AnswersBy};
ghost use Rattle.zelamiku.specs.HeadDoors.{TellsHead, no_head};
ghost use Rattle.zelamiku.specs.LayoutDoors.{TellsLayoutAt};
ghost use Rattle.zelamiku.specs.declared.status.TheConstants.{OK};

use crate::slot::Slot;
use crate::words::{Field, Head};
use crate::{head_calls, layout_calls, status};

/// Tells what the first bytes of a device say.
#[unsafe(no_mangle)]
pub extern "C" fn zelamiku_head(begun: &[u8], head: &mut Head) -> u32
    // C is told which layout's header the first bytes of a device are, or that they are none. Where they are none, it is
    // told whether there may have been an image. It is told from where on a device has zeros, where a heap was only
    // being made on it.
    ensures { TellsHead begun.now head.new result }
{
    let (found, answer) = head_calls::told_of(begun);
    *head = found;
    answer
}

/// Tells the layout of a heap that is open, and its fields, as many as there is room for.
#[unsafe(no_mangle)]
pub extern "C" fn zelamiku_fields(place: &mut Slot, head: &mut Head, fields: &mut [Field]) -> u32
    // C is told an open heap's layout, and the owner, the guard, the first value and the mark of each field that its
    // image has.
    ensures told { AnswersBy (TellsLayoutAt head.new fields.new) place.old place.new result }
    // Where no layout is told all numbers are 0.
    ensures refused { result ≢ OK → head.new ≡ no_head }
    // Where no layout is told the fields stay as they were.
    ensures kept { result ≢ OK → fields.new ≡ fields.old }
{
    *head = head_calls::nothing();
    if !place.is_open() {
        return status::NOTHING;
    }
    let (found, answer) = layout_calls::tell(place.handle.as_mut(), fields);
    *head = found;
    answer
}
