//! Records by their 16 bytes.
use heap_model::{FieldId, ObjectId, UndoRecord};
use undo_log::{decode_record, encode_record};

// The records of `docs/FORMAT.md`, "Records", and the last of each limit.
const DOCUMENTED: [(UndoRecord, [u8; 16]); 5] = [
    (
        UndoRecord::Acq {
            object: ObjectId(0),
            number: 1,
        },
        [1, 0, 0, 0, 0, 0, 0, 0, 0, 0, 0, 0, 0, 0, 0, 1],
    ),
    (
        UndoRecord::Put {
            field: FieldId(0),
            before: 10,
        },
        [4, 0, 0, 0, 0, 0, 0, 0, 0, 0, 0, 0, 0, 0, 0, 10],
    ),
    (
        UndoRecord::Rel {
            object: ObjectId(4095),
            number: 1_099_511_627_774,
        },
        [2, 0, 0, 0, 0, 0, 15, 255, 0, 0, 0, 255, 255, 255, 255, 254],
    ),
    (
        UndoRecord::WaitRel {
            object: ObjectId(258),
            number: 4_328_719_365,
        },
        [3, 0, 0, 0, 0, 0, 1, 2, 0, 0, 0, 1, 2, 3, 4, 5],
    ),
    (
        UndoRecord::Put {
            field: FieldId(16_383),
            before: u64::MAX,
        },
        [
            4, 0, 0, 0, 0, 0, 63, 255, 255, 255, 255, 255, 255, 255, 255, 255,
        ],
    ),
];

// The first of these records that is not spelt so, or not read of these bytes.
fn first_other(cases: &[(UndoRecord, [u8; 16])]) -> Option<UndoRecord> {
    for (entry, bytes) in cases.iter().copied() {
        if encode_record(&entry) != bytes {
            return Some(entry);
        }
        if decode_record(&bytes) != Some(entry) {
            return Some(entry);
        }
    }
    None
}

#[test]
fn records_are_as_documented(rt: HostRuntime) {
    assert!(rt; first_other(&DOCUMENTED).is_none());
}

// What is no record, and why not.
const OTHERS: [(&str, [u8; 16]); 12] = [
    ("kind 0", [0, 0, 0, 0, 0, 0, 0, 0, 0, 0, 0, 0, 0, 0, 0, 0]),
    ("kind 5", [5, 0, 0, 0, 0, 0, 0, 0, 0, 0, 0, 0, 0, 0, 0, 1]),
    (
        "kind 255",
        [255, 0, 0, 0, 0, 0, 0, 0, 0, 0, 0, 0, 0, 0, 0, 1],
    ),
    ("byte 1", [1, 1, 0, 0, 0, 0, 0, 0, 0, 0, 0, 0, 0, 0, 0, 1]),
    ("byte 2", [2, 0, 128, 0, 0, 0, 0, 0, 0, 0, 0, 0, 0, 0, 0, 1]),
    ("byte 3", [4, 0, 0, 255, 0, 0, 0, 0, 0, 0, 0, 0, 0, 0, 0, 1]),
    (
        "object 4,096",
        [1, 0, 0, 0, 0, 0, 16, 0, 0, 0, 0, 0, 0, 0, 0, 1],
    ),
    (
        "object 2^31",
        [2, 0, 0, 0, 128, 0, 0, 0, 0, 0, 0, 0, 0, 0, 0, 1],
    ),
    (
        "field 16,384",
        [4, 0, 0, 0, 0, 0, 64, 0, 0, 0, 0, 0, 0, 0, 0, 1],
    ),
    (
        "number 2^40 - 1",
        [1, 0, 0, 0, 0, 0, 0, 0, 0, 0, 0, 255, 255, 255, 255, 255],
    ),
    (
        "number 2^40",
        [2, 0, 0, 0, 0, 0, 0, 0, 0, 0, 1, 0, 0, 0, 0, 0],
    ),
    (
        "number 2^63",
        [3, 0, 0, 0, 0, 0, 0, 0, 128, 0, 0, 0, 0, 0, 0, 0],
    ),
];

// What of these is a record, if something is.
fn record_in<'a>(cases: &[(&'a str, [u8; 16])]) -> Option<&'a str> {
    for (what, bytes) in cases {
        if decode_record(bytes).is_some() {
            return Some(*what);
        }
    }
    None
}

#[test]
fn other_bytes_are_no_record(rt: HostRuntime) {
    assert!(rt; record_in(&OTHERS).is_none());
}
