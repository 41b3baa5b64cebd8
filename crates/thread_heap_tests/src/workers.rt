//! What a worker does.

ghost use Rattle.session.specs.Sessions.{IsSessionOf};

use crate::notes::{MOST, Notes};
use crate::work::{ALL, TOTAL, value_for_all};
use heap_model::{FieldId, ObjectId};
use monitor::Shared;
use session::Session;
use std::sync::Wait;

/// One section: it takes the next number, gives the field for all free, and then stores the number in the worker's own field.
/// Meanwhile another section may take the number after it, and end first. Returns the number, or 0 where a call was refused.
pub fn take_number<R: Wait>(rt: &R, shared: &Shared, session: &mut Session, own: u32) -> u64
    requires seat { IsSessionOf shared.now session.old }
    ensures seat { IsSessionOf shared.now session.new }
{
    let entered = session.enter(rt, shared, ALL).is_ok();
    let number = value_for_all(shared, session).wrapping_add(1);
    let counted = session.store(shared, TOTAL, number).is_ok();
    let entered_own = session.enter(rt, shared, ObjectId(own)).is_ok();
    let left = session.exit(shared, ALL).is_ok();
    let stored = session.store(shared, FieldId(own), number).is_ok();
    let left_own = session.exit(shared, ObjectId(own)).is_ok();
    if entered & counted & entered_own & left & stored & left_own {
        number
    } else {
        0
    }
}

/// As many sections as a worker does, and its own record of them.
pub fn work<R: Wait>(rt: &R, shared: &Shared, session: Session, own: u32) -> Notes
    requires seat { IsSessionOf shared.now session }
{
    let mut session = session;
    let mut notes = Notes::new();
    for place in 0..MOST {
        notes.note(place, take_number(rt, shared, &mut session, own));
    }
    notes
}
