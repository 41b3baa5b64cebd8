//! What helpers and sessions do again and again.

ghost use Rattle.thread_heap.specs.Joined.{IsHelping, StayJoined, StaysJoined};
ghost use Rattle.session.specs.Sessions.{IsSessionOf, SameRing};

use block_disk::Disk;
use durable::StoreError;
use heap_model::{FieldId, ObjectId};
use monitor::Shared;
use session::Session;
use std::sync::Wait;
use thread_heap::{helping_law, joined_law};
use trim_helper::Helper;

/// What sections count in.
pub const ALL: ObjectId = ObjectId(0);

/// The field for all.
pub const TOTAL: FieldId = FieldId(0);

/// One round of the helper.
pub fn serve<D: Disk>(shared: &Shared, helper: &mut Helper<D>) -> Result<u64, StoreError>
    requires helping { IsHelping D.device shared.now helper.old }
    ensures helping { IsHelping D.device shared.now helper.new }
    ensures joined { StayJoined shared.now helper.old helper.new }
{
    helping_law::<D>();
    joined_law();
    helper.round(shared)
}

/// The value of the field for all.
pub fn value_for_all(shared: &Shared, session: &mut Session) -> u64
    requires seat { IsSessionOf shared.now session.old }
    ensures seat { IsSessionOf shared.now session.new }
    ensures ring { SameRing session.old session.new }
{
    match session.load(shared, TOTAL) {
        Ok(value) => value,
        Err(_) => 0,
    }
}

/// Adds one to the field for all, in a section of its own, and answers whether each call was Ok.
pub fn add_one<R: Wait>(rt: &R, shared: &Shared, session: &mut Session) -> bool
    requires seat { IsSessionOf shared.now session.old }
    ensures seat { IsSessionOf shared.now session.new }
    ensures joined { StaysJoined shared.now session.old session.new }
{
    joined_law();
    let entered = session.enter(rt, shared, ALL).is_ok();
    let value = value_for_all(shared, session);
    let stored = session.store(shared, TOTAL, value.wrapping_add(1)).is_ok();
    let left = session.exit(shared, ALL).is_ok();
    entered & stored & left
}
