//! What a lane's log keeps of a thread's events.

ghost use Rattle.std.specs.Prelude.{◌≡◌, ◌↔◌, IsTrue};
ghost use Rattle.heap_model.specs.Record.{undo_of, EndsSection};

use crate::ids::{FieldId, Lane, ObjectId};

/// One logged event of a thread.
///
/// A `number` is the release number that the acquire found: how often the monitor had become free
/// since the heap was opened. A release carries the number of its acquire.
#[derive(Clone, Copy, Debug, PartialEq, Eq)]
pub enum Record {
    /// The thread took the monitor, which was free (JLS 17.1).
    Acq {
        object: ObjectId,
        number: u64,
    },
    /// The thread's last unlock, which frees the monitor (JLS 17.1).
    Rel {
        object: ObjectId,
        number: u64,
    },
    /// A wait frees the monitor (JLS 17.2.1). The thread's next record takes it again.
    WaitRel {
        object: ObjectId,
        number: u64,
    },
    /// A store to a field, with the values before and after it.
    Put {
        field: FieldId,
        before: u64,
        after: u64,
    },
}

/// What the undo log keeps of a [`Record`]: all but the new value of a store (Atlas, OOPSLA 2014).
#[derive(Clone, Copy, Debug, PartialEq, Eq)]
pub enum UndoRecord {
    /// As [`Record::Acq`].
    Acq { object: ObjectId, number: u64 },
    /// As [`Record::Rel`].
    Rel { object: ObjectId, number: u64 },
    /// As [`Record::WaitRel`].
    WaitRel { object: ObjectId, number: u64 },
    /// A store to a field, with the value that undoing it puts back.
    Put { field: FieldId, before: u64 },
}

/// A lane's record.
#[derive(Clone, Copy, Debug, PartialEq, Eq)]
pub struct LaneRecord {
    pub lane: Lane,
    pub record: Record,
}

impl Record {
    /// The record as the undo log keeps it.
    pub fn undo(self) -> UndoRecord
        // The answer is the record as the undo log keeps it.
        ensures { result ≡ undo_of self }
    {
        match self {
            Record::Acq { object, number } => UndoRecord::Acq { object, number },
            Record::Rel { object, number } => UndoRecord::Rel { object, number },
            Record::WaitRel { object, number } => UndoRecord::WaitRel { object, number },
            Record::Put {
                field,
                before,
                after: _,
            } => UndoRecord::Put { field, before },
        }
    }

    /// Whether a section ends with this record, by a thread that holds `held` monitors before it.
    ///
    /// A monitor that is locked several times counts once.
    pub fn is_section_end(self, held: u32) -> bool
        // The answer is true exactly where the record ends a section of a lane that holds these objects.
        ensures { IsTrue result ↔ EndsSection self held }
    {
        match self {
            Record::Rel { .. } | Record::WaitRel { .. } => held == 1,
            Record::Acq { .. } | Record::Put { .. } => false,
        }
    }
}
