//! Worked records of two lanes over three fields. A cut keeps the first section of lane 0.
ghost use Rattle.std.specs.Prelude.{◌+◌, ◌<◌, ◌^◌};
ghost use Rattle.store_round_memory.specs.Surveys.{FitsLane};

use crate::keeping::leave;
use heap_model::{FieldId, Lane, LaneRecord, ObjectId, Record};

fn acquire(lane: u8, object: u32, number: u64) -> LaneRecord
    requires lane { lane < 32 }
    requires object { object < 2 }
    requires number { number + 1 < 2 ^ 64 }
    ensures { FitsLane 32 2 3 result }
{
    LaneRecord {
        lane: Lane(lane),
        record: Record::Acq {
            object: ObjectId(object),
            number,
        },
    }
}

fn release(lane: u8, object: u32, number: u64) -> LaneRecord
    requires { lane < 32 }
    ensures { FitsLane 32 2 3 result }
{
    LaneRecord {
        lane: Lane(lane),
        record: Record::Rel {
            object: ObjectId(object),
            number,
        },
    }
}

fn put(lane: u8, field: u32, before: u64, after: u64) -> LaneRecord
    requires lane { lane < 32 }
    requires field { field < 3 }
    ensures { FitsLane 32 2 3 result }
{
    LaneRecord {
        lane: Lane(lane),
        record: Record::Put {
            field: FieldId(field),
            before,
            after,
        },
    }
}

// What the cut doesn't keep is left in its order.
fn is_left_as_worked() -> bool {
    let mut records = [
        acquire(0, 0, 0),
        release(0, 0, 0),
        acquire(1, 1, 2),
        acquire(0, 0, 1),
        put(1, 2, 30, 31),
        put(0, 0, 10, 11),
    ];
    let mut counts = [0; 32];
    counts[0] = 2;
    let left = leave(&mut records, 0, &counts);
    left == 4
        && records[0] == acquire(1, 1, 2)
        && records[1] == acquire(0, 0, 1)
        && records[2] == put(1, 2, 30, 31)
        && records[3] == put(0, 0, 10, 11)
}

#[test]
fn what_the_cut_keeps_is_left_out(rt: HostRuntime) {
    assert!(rt; is_left_as_worked());
}
