//! What a survey finds of records.
ghost use Rattle.std.specs.Prelude.{◌≡◌, ◌+◌, ◌-◌, ◌<◌, ◌≤◌, ◌^◌, ℕ, [], ◌∷◌, true, false, All, IfOk, List, if◌then◌else◌, length, slice_index, slice_set, take};
ghost use Rattle.std.specs.Vec.{vec_capacity, vec_len};
ghost use Rattle.heap_model.specs.declared.record.Record.{Record as AnyRecord};
ghost use Rattle.heap_model.specs.Log.{log_from};
ghost use Rattle.store_round_memory.specs.Counting.{Apart, Counts, first_of as first_among, is_kept as is_kept_of, taken_after, takes_one};
ghost use Rattle.store_round_memory.specs.Surveys.{AreAllOpen, AreOpen, CanSurvey, Fits, FoundNothing, HasField, IsSortedByField, IsSurvey, NotesStore, SetsOpen, StaysSurvey, TellsAsBefore, TellsDownTo, is_marked};

use crate::counting::is_newest_kept;
use heap_model::{FieldId, LaneRecord, ObjectId, Record};
use std::alloc::{AllocError, Global};
use store_round_image::HomeValue;

/// What a survey has found of the records beyond a cut, and what is known of their takes.
#[derive(Drop)]
pub(crate) struct Survey {
    // The fields that change, each once, with their new values. `find` leaves them in their order.
    pub(crate) changed: Vec<HomeValue>,
    // By field: whether it is one of these.
    pub(crate) marks: Vec<bool>,
    // By object: one more than the number at which it was last taken, or 0 where it never was.
    pub(crate) taken: Vec<u64>,
    // By object: how many takes of it the surveyed cut doesn't keep.
    pub(crate) open_takes: Vec<u64>,
    // By object: 0, or one more than the number of the first of these takes. An object's numbers follow one another.
    pub(crate) first: Vec<u64>,
}

impl Survey {
    /// A survey that has found nothing, of so many objects and fields.
    pub(crate) fn new(alloc: Global, objects: u32, fields: usize) -> Result<Survey, AllocError>
        ensures survey { IfOk result (λ v. IsSurvey objects fields v) }
        ensures nothing { IfOk result (λ v. FoundNothing v) }
        ensures taken { IfOk result (λ v. (o : ℕ) → slice_index v.taken.items o ≡ 0) }
        ensures none { IfOk result (λ v. (o : ℕ) → slice_index v.open_takes.items o ≡ 0) }
    {
        Ok(Survey {
            changed: Vec::with_capacity(alloc, fields)?,
            marks: vec![in alloc; false; fields]?,
            taken: vec![in alloc; 0; objects as usize]?,
            open_takes: vec![in alloc; 0; objects as usize]?,
            first: vec![in alloc; 0; objects as usize]?,
        })
    }

    /// Counts the next record's take, which is open.
    pub(crate) fn take(&mut self, next: Record)
        requires survey { (objects : ℕ) × (fields : ℕ) × IsSurvey objects fields self.old × Fits objects fields next }
        requires few { (o : ℕ) → slice_index self.old.open_takes.items o + 1 < 2 ^ 64 }
        ensures survey { StaysSurvey self.old self.new }
        ensures opened { (o : ℕ) → slice_index self.new.open_takes.items o ≡ takes_one o next + slice_index self.old.open_takes.items o }
        ensures taken { (o : ℕ) → slice_index self.new.taken.items o ≡ taken_after o next (slice_index self.old.taken.items o) }
        ensures changed { self.new.changed ≡ self.old.changed }
        ensures marks { self.new.marks ≡ self.old.marks }
    {
        if let Record::Acq { object, number } = next {
            set_number(&mut self.taken, object, number + 1);
            let count = self.open_takes[object.0 as usize] + 1;
            self.set_open(object, count);
        }
    }

    /// Forgets what was found of these records, of which the oldest is first: `counts` has how many of each lane's were kept. None of
    /// those lies before `from`, where the walk begins; `many` has how many records each lane has.
    pub(crate) fn forget(
        &mut self,
        records: &[LaneRecord],
        many: &[u64; 32],
        from: usize,
        counts: &[u64; 32],
    )
        requires survey { CanSurvey self.old records.now }
        requires many { Counts many.now (log_from records.now) }
        requires from { from ≤ length records.now }
        requires apart { Apart counts.now (log_from (take from records.now)) }
        requires opened { AreOpen counts.now (log_from records.now) self.old }
        ensures survey { StaysSurvey self.old self.new }
        ensures nothing { FoundNothing self.new }
        ensures opened { AreAllOpen (log_from records.now) self.new }
        ensures taken { self.new.taken.items ≡ self.old.taken.items }
    {
        unmark(&mut self.marks, &self.changed);
        self.changed.clear();
        self.reopen_all(records, many, from, counts);
    }

    // Opens the takes again that these counts have kept.
    fn reopen_all(
        &mut self,
        records: &[LaneRecord],
        many: &[u64; 32],
        from: usize,
        counts: &[u64; 32],
    )
        requires survey { CanSurvey self.old records.now }
        requires many { Counts many.now (log_from records.now) }
        requires from { from ≤ length records.now }
        requires apart { Apart counts.now (log_from (take from records.now)) }
        requires opened { AreOpen counts.now (log_from records.now) self.old }
        ensures survey { StaysSurvey self.old self.new }
        ensures opened { AreAllOpen (log_from records.now) self.new }
        ensures taken { self.new.taken ≡ self.old.taken }
        ensures changed { self.new.changed ≡ self.old.changed }
        ensures marks { self.new.marks ≡ self.old.marks }
    {
        let mut left = *many;
        for newer in 0..records.len() - from {
            let entry = records[records.len() - 1 - newer];
            let is_kept = is_newest_kept(&mut left, counts, entry.lane);
            self.reopen(entry.record, is_kept);
        }
    }

    // Opens the record's take again, where it was kept.
    fn reopen(&mut self, next: Record, is_kept: bool)
        requires survey { (objects : ℕ) × (fields : ℕ) × IsSurvey objects fields self.old × Fits objects fields next }
        requires few { (o : ℕ) → slice_index self.old.open_takes.items o + (if is_kept then takes_one o next else 0) < 2 ^ 64 }
        ensures survey { StaysSurvey self.old self.new }
        ensures opened { (o : ℕ) → slice_index self.new.open_takes.items o ≡ slice_index self.old.open_takes.items o + (if is_kept then takes_one o next else 0) }
        ensures taken { self.new.taken ≡ self.old.taken }
        ensures changed { self.new.changed ≡ self.old.changed }
        ensures marks { self.new.marks ≡ self.old.marks }
    {
        if let Record::Acq { object, number: _ } = next {
            if is_kept {
                let count = self.open_takes[object.0 as usize] + 1;
                self.set_open(object, count);
            }
        }
    }

    /// Finds what is kept of these records, of which the oldest is first, where nothing was found yet: `counts` has how many of each
    /// lane's are kept. None of those lies before `from`, where the walk begins; `many` has how many records each lane has.
    pub(crate) fn find(
        &mut self,
        records: &[LaneRecord],
        many: &[u64; 32],
        from: usize,
        counts: &[u64; 32],
    )
        requires survey { CanSurvey self.old records.now }
        requires many { Counts many.now (log_from records.now) }
        requires from { from ≤ length records.now }
        requires apart { Apart counts.now (log_from (take from records.now)) }
        requires nothing { FoundNothing self.old }
        requires opened { AreAllOpen (log_from records.now) self.old }
        ensures survey { StaysSurvey self.old self.new }
        ensures tells { TellsDownTo counts.now (log_from records.now) [] self.new }
        ensures sorted { IsSortedByField self.new.changed.items }
        ensures taken { self.new.taken.items ≡ self.old.taken.items }
    {
        self.note_all(records, many, from, counts);
        self.sort_changed();
    }

    // Notes each record from the place on, the newest first.
    fn note_all(
        &mut self,
        records: &[LaneRecord],
        many: &[u64; 32],
        from: usize,
        counts: &[u64; 32],
    )
        requires survey { CanSurvey self.old records.now }
        requires many { Counts many.now (log_from records.now) }
        requires from { from ≤ length records.now }
        requires apart { Apart counts.now (log_from (take from records.now)) }
        requires nothing { FoundNothing self.old }
        requires opened { AreAllOpen (log_from records.now) self.old }
        ensures survey { StaysSurvey self.old self.new }
        ensures tells { TellsDownTo counts.now (log_from records.now) [] self.new }
        ensures taken { self.new.taken.items ≡ self.old.taken.items }
    {
        let mut left = *many;
        for newer in 0..records.len() - from {
            let noted = records[records.len() - 1 - newer];
            let is_kept = is_newest_kept(&mut left, counts, noted.lane);
            self.note(noted.record, is_kept);
        }
    }

    // Puts the values in the order of their fields. Neighbours are then written one after the other, and a device that joins such writes
    // makes one of them.
    fn sort_changed(&mut self)
        ensures survey { StaysSurvey self.old self.new }
        ensures tells { TellsAsBefore self.old self.new }
        ensures sorted { IsSortedByField self.new.changed.items }
        ensures taken { self.new.taken ≡ self.old.taken }
    {
        self.changed.sort_unstable_by_key(|change| change.field.0);
    }

    // Notes a record that is older than those noted.
    fn note(&mut self, next: Record, is_kept: bool)
        requires survey { (objects : ℕ) × (fields : ℕ) × IsSurvey objects fields self.old × Fits objects fields next }
        ensures survey { StaysSurvey self.old self.new }
        ensures tells { (counts : List ℕ) (all older : List (ℕ × AnyRecord)) (l : ℕ) → is_kept ≡ is_kept_of counts l older
            → TellsDownTo counts all ((l, next) ∷ older) self.old → TellsDownTo counts all older self.new }
        ensures taken { self.new.taken.items ≡ self.old.taken.items }
    {
        match next {
            Record::Put {
                field,
                before: _,
                after,
            } => {
                if is_kept {
                    self.note_store(field, after);
                }
            }
            Record::Acq { object, number: _ } => {
                if is_kept {
                    let count = self.open_takes[object.0 as usize].saturating_sub(1);
                    self.set_open(object, count);
                }
            }
            Record::Rel { .. } | Record::WaitRel { .. } => {}
        }
    }

    // Notes that the field gets this value, unless a newer one was noted.
    fn note_store(&mut self, field: FieldId, value: u64)
        requires field { field.0 < length self.old.marks.items }
        requires room { is_marked self.old.marks.items field.0 ≡ false → vec_len self.old.changed < vec_capacity self.old.changed }
        ensures again { is_marked self.old.marks.items field.0 ≡ true → self.new ≡ self.old }
        ensures once { is_marked self.old.marks.items field.0 ≡ false → NotesStore field value self.old self.new }
    {
        if !self.marks[field.0 as usize] {
            set_mark(&mut self.marks, field, true);
            self.changed.push_reserved(HomeValue { field, value });
        }
    }

    // So many takes of the object are open: its first number follows from that.
    fn set_open(&mut self, object: ObjectId, count: u64)
        requires taken { object.0 < length self.old.taken.items }
        requires opened { object.0 < length self.old.open_takes.items }
        requires first { object.0 < length self.old.first.items }
        ensures { SetsOpen object.0 count self.old self.new }
    {
        let first = first_of(self.taken[object.0 as usize], count);
        set_number(&mut self.open_takes, object, count);
        set_number(&mut self.first, object, first);
    }
}

// One more than the number of the first of so many open takes, the last of which has one number less than `taken`.
fn first_of(taken: u64, count: u64) -> u64
    ensures { result ≡ first_among taken count }
{
    if count == 0 {
        0
    } else {
        taken.saturating_sub(count) + 1
    }
}

// Sets the object's number.
fn set_number(numbers: &mut [u64], object: ObjectId, number: u64)
    requires { object.0 < length numbers.old }
    ensures { numbers.new ≡ slice_set numbers.old object.0 number }
{
    numbers[object.0 as usize] = number;
}

// Sets the field's mark, or takes it away.
fn set_mark(marks: &mut [bool], field: FieldId, mark: bool)
    requires { field.0 < length marks.old }
    ensures { marks.new ≡ slice_set marks.old field.0 mark }
{
    marks[field.0 as usize] = mark;
}

// Takes the marks of these fields away.
fn unmark(marks: &mut [bool], changed: &[HomeValue])
    requires { All (HasField (length marks.old)) changed.now }
    ensures size { length marks.new ≡ length marks.old }
    ensures unmarked { All (λ c. is_marked marks.new c.field.0 ≡ false) changed.now }
    ensures others { (f : ℕ) → is_marked marks.old f ≡ false → is_marked marks.new f ≡ false }
{
    for change in changed {
        set_mark(marks, change.field, false);
    }
}
