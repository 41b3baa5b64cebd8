//! How far a lane has come.
ghost use Rattle.std.specs.Prelude.{◌≡◌, ◌↔◌, ◌+◌, ◌<◌, ◌≤◌, ◌^◌, ◌∷◌, [], IsTrue, List, length, map, reverse};
ghost use Rattle.heap_model.specs.Sections.{undo_action};
ghost use Rattle.recover_logs.specs.Lanes.{CountsAll, awaited_after, count_of};

use heap_model::{ObjectId, UndoRecord};

/// How far a lane has come after some of its records.
#[derive(Clone, Copy, Debug, PartialEq, Eq)]
pub struct LaneCount {
    /// The place of its next record: how many came before.
    pub place: u64,
    /// How many monitors it holds. One that is locked several times counts once.
    pub held: u64,
    /// How many of its sections have ended.
    pub ended: u64,
    /// How many records its open section has, 0 where it holds nothing.
    pub since: u64,
    /// The object on which it waits, and which it takes next.
    pub awaited: Option<ObjectId>,
}

impl LaneCount {
    ghost use Rattle.std.specs.Prelude.{◌≡◌, ◌↔◌, ◌+◌, ◌<◌, ◌^◌, ◌∷◌, [], IsTrue, List, length, map};
    ghost use Rattle.heap_model.specs.Sections.{undo_action};
    ghost use Rattle.recover_logs.specs.Lanes.{CountsRecord, HasRoom, MayFollow, count_after, ended_after, ends_at, held_after, new_count};

    /// The count of a lane with no records.
    pub fn new() -> LaneCount
        ensures { result ≡ new_count }
    {
        LaneCount {
            place: 0,
            held: 0,
            ended: 0,
            since: 0,
            awaited: None,
        }
    }

    /// Whether the lane may do this record next, as far as its wait goes: one that waits on an object takes that object
    /// (JLS 17.2.1).
    pub fn may_follow(self, next: UndoRecord) -> bool
        // The answer is true exactly where the record may follow the lane's records so far.
        ensures { IsTrue result ↔ MayFollow self.awaited next }
    {
        match (self.awaited, next) {
            (None, _) => true,
            (Some(object), UndoRecord::Acq { object: taken, .. }) => taken == object,
            (Some(_), _) => false,
        }
    }

    /// The count with one more record. A release is of an object that the lane holds.
    pub fn after(self, next: UndoRecord) -> LaneCount
        requires { HasRoom self }
        ensures counts { CountsRecord self next result }
        // The count after one record more is that of the lane's records with it.
        ensures exact { result ≡ count_after self next }
    {
        self.step(next)
    }

    // What the record makes of each number.
    fn step(self, next: UndoRecord) -> LaneCount
        requires { HasRoom self }
        ensures { result ≡ count_after self next }
    {
        let held = self.held_after(next);
        LaneCount {
            place: self.place + 1,
            held,
            ended: self.ended_after(next),
            since: if held == 0 { 0 } else { self.since + 1 },
            awaited: awaited_after_record(next),
        }
    }

    // How many monitors the lane holds after the record.
    fn held_after(self, next: UndoRecord) -> u64
        requires { self.held + 1 < 2 ^ 64 }
        ensures { result ≡ held_after (undo_action next) self.held }
    {
        match next {
            UndoRecord::Acq { .. } => self.held + 1,
            UndoRecord::Rel { .. } | UndoRecord::WaitRel { .. } => self.held.saturating_sub(1),
            UndoRecord::Put { .. } => self.held,
        }
    }

    /// Whether the record ends the lane's section: it frees the last object that the lane holds.
    pub fn ends(self, next: UndoRecord) -> bool
        // The answer is true exactly where the record ends the lane's section.
        ensures { result ≡ ends_at next self.held }
    {
        match next {
            UndoRecord::Rel { .. } | UndoRecord::WaitRel { .. } => self.held == 1,
            UndoRecord::Acq { .. } | UndoRecord::Put { .. } => false,
        }
    }

    // How many of its sections have ended after the record.
    fn ended_after(self, next: UndoRecord) -> u64
        requires { self.ended + 1 < 2 ^ 64 }
        ensures { result ≡ ended_after (undo_action next) self.held self.ended }
    {
        if self.ends(next) {
            self.ended + 1
        } else {
            self.ended
        }
    }
}

fn awaited_after_record(next: UndoRecord) -> Option<ObjectId>
    ensures { result ≡ awaited_after next }
{
    match next {
        UndoRecord::WaitRel { object, .. } => Some(object),
        _ => None,
    }
}

/// The count of a lane after these records, which have the oldest first.
pub fn count_all(records: &[UndoRecord]) -> LaneCount
    // The count of a whole list is that of its records, one after the other.
    ensures exact { result ≡ count_of (reverse records.now) }
    ensures counts { CountsAll records.now result }
{
    let mut count = LaneCount::new();
    for entry in records {
        count = count.after(*entry);
    }
    count
}
