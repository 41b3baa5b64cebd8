//! Worked lists of records: what they leave of a lane and of the monitors.

ghost use Rattle.std.specs.Prelude.{◌<◌};

use heap_model::{FieldId, Lane, ObjectId, UndoRecord};
use recover_logs::{LaneCount, Monitors};

const OBJECT: ObjectId = ObjectId(3);

const TAKE: UndoRecord = UndoRecord::Acq {
    object: OBJECT,
    number: 7,
};

const WAIT: UndoRecord = UndoRecord::WaitRel {
    object: OBJECT,
    number: 7,
};

const STORE: UndoRecord = UndoRecord::Put {
    field: FieldId(0),
    before: 1,
};

// Its place, the monitors held, the sections ended and the records since.
fn numbers(count: LaneCount) -> [u64; 4] {
    [count.place, count.held, count.ended, count.since]
}

const TAKE_ANOTHER: UndoRecord = UndoRecord::Acq {
    object: ObjectId(2),
    number: 7,
};

const FREE: UndoRecord = UndoRecord::Rel {
    object: OBJECT,
    number: 7,
};

// A take, a store, a wait and a take: what is counted at first and behind each of them; and whether the lane may take the
// object or another one while it waits, and free it in the end.
fn told_of_lane() -> ([[u64; 4]; 5], [bool; 3]) {
    let new = LaneCount::new();
    let taken = new.after(TAKE);
    let stored = taken.after(STORE);
    let freed = stored.after(WAIT);
    let again = freed.after(TAKE);
    let counted = [
        numbers(new),
        numbers(taken),
        numbers(stored),
        numbers(freed),
        numbers(again),
    ];
    let may_follow = [
        freed.may_follow(TAKE),
        freed.may_follow(TAKE_ANOTHER),
        again.may_follow(FREE),
    ];
    (counted, may_follow)
}

// JLS 17.2.1 and Atlas: a section goes from holding nothing to holding nothing, and a wait's release ends one too.
#[test]
fn a_lane_is_counted(rt: HostRuntime) {
    let counted = [
        [0, 0, 0, 0],
        [1, 1, 0, 1],
        [2, 1, 0, 2],
        [3, 0, 1, 0],
        [4, 1, 1, 1],
    ];
    assert!(rt; told_of_lane() == (counted, [true, false, true]));
}

// Whether the lane may take the monitor at 5 and at 6, store to a field under it, to one of which logs keep no store, and
// free it at 5.
fn allowed(monitors: &Monitors, lane: Lane, object: ObjectId) -> [bool; 5]
    requires { object.0 < 4096 }
{
    [
        monitors.allows(lane, UndoRecord::Acq { object, number: 5 }, None),
        monitors.allows(lane, UndoRecord::Acq { object, number: 6 }, None),
        monitors.allows(lane, STORE, Some(object)),
        monitors.allows(lane, STORE, None),
        monitors.allows(lane, UndoRecord::Rel { object, number: 5 }, None),
    ]
}

// What the first lane may do at first, what it and the second may do once it has taken the monitor, and the second once it is
// free again.
fn told_of_monitor(first: Lane, second: Lane, object: ObjectId) -> [[bool; 5]; 4]
    requires { object.0 < 4096 }
{
    let mut monitors = Monitors::free_at([5; 4096]);
    let free = allowed(&monitors, first, object);
    monitors.note(first, UndoRecord::Acq { object, number: 5 });
    let held = allowed(&monitors, first, object);
    let by_another = allowed(&monitors, second, object);
    monitors.note(first, UndoRecord::Rel { object, number: 5 });
    [free, held, by_another, allowed(&monitors, second, object)]
}

// JLS 17.1: one lane holds a monitor at a time. The release number rises by one with each release.
#[test]
fn a_monitor_goes_from_lane_to_lane(rt: HostRuntime) {
    let wanted = [
        [true, false, false, false, false],
        [false, false, true, false, true],
        [false; 5],
        [false, true, false, false, false],
    ];
    assert!(rt; told_of_monitor(Lane(0), Lane(31), ObjectId(4095)) == wanted);
}
