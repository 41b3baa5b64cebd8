//! Records whose answers are known.

ghost use Rattle.std.specs.Prelude.{◌≡◌, true, false};

use heap_model::{FieldId, Lane, LaneRecord, ObjectId, Record, StoreError};
use std::alloc::Global;
use store_memory::{Applied, FieldState};

fn acq(object: u32, number: u64) -> Record {
    Record::Acq {
        object: ObjectId(object),
        number,
    }
}

fn rel(object: u32, number: u64) -> Record {
    Record::Rel {
        object: ObjectId(object),
        number,
    }
}

fn wait(object: u32, number: u64) -> Record {
    Record::WaitRel {
        object: ObjectId(object),
        number,
    }
}

fn put(field: u32, before: u64, after: u64) -> Record {
    Record::Put {
        field: FieldId(field),
        before,
        after,
    }
}

// A field of this guard, with this value at home.
fn field(guard: u32, value: u64) -> FieldState
    ensures { result ≡ record { guard = record { 0 = guard }; is_logged = true; value = value; logged = value } }
{
    FieldState {
        guard: ObjectId(guard),
        is_logged: true,
        value,
        logged: value,
    }
}

// A transient field of this guard, with this first value.
fn transient(guard: u32, value: u64) -> FieldState
    ensures { result ≡ record { guard = record { 0 = guard }; is_logged = false; value = value; logged = value } }
{
    FieldState {
        guard: ObjectId(guard),
        is_logged: false,
        value,
        logged: value,
    }
}

// Two lanes, objects o0 to o3, and fields f0 of o0 and f1 of o1, with values 10 and 20.
fn memory(alloc: Global, last: u64) -> Option<Applied> {
    let fields = vec![in alloc; field(0, 10), field(1, 20)].ok()?;
    Applied::new(alloc, 2, 2000, 4, fields, last).ok()
}

// A lane's record, and what it is to be answered.
type Told = (u8, Record, Result<(), StoreError>);

// Tells the records in turn, up to the first that is answered otherwise, and gives its number.
fn first_other(applied: &mut Applied, steps: &[Told]) -> Option<usize> {
    for (place, step) in steps.iter().enumerate() {
        let (lane, record, answer) = *step;
        if applied.apply(Lane(lane), record) != answer {
            return Some(place);
        }
    }
    None
}

// Whether a new memory, with release numbers up to `last`, answers all so.
fn answers_so(alloc: Global, last: u64, steps: &[Told]) -> Option<bool> {
    let mut applied = memory(alloc, last)?;
    let other = first_other(&mut applied, steps);
    drop(applied);
    Some(other.is_none())
}

// Each refusal, and what is taken between them.
#[test]
fn refusals_come_in_order(rt: HostRuntime) {
    let steps = [
        (2, acq(9, 9), Err(StoreError::BadLane)),
        (0, acq(4, 9), Err(StoreError::BadId)),
        (0, put(2, 10, 5), Err(StoreError::BadId)),
        (0, rel(0, 2), Err(StoreError::Worn)),
        (0, rel(0, 0), Err(StoreError::NotNext)),
        (0, acq(0, 1), Err(StoreError::NotNext)),
        (0, acq(0, 0), Ok(())),
        (1, acq(0, 0), Err(StoreError::NotNext)),
        (1, put(0, 10, 5), Err(StoreError::NotNext)),
        (0, put(0, 11, 5), Err(StoreError::NotNext)),
        (0, put(1, 20, 5), Err(StoreError::NotNext)),
        (0, put(0, 10, 5), Ok(())),
        (0, rel(0, 0), Ok(())),
        (1, acq(0, 1), Ok(())),
        (1, put(0, 5, 6), Ok(())),
        (1, rel(0, 1), Ok(())),
        (0, acq(0, 2), Err(StoreError::Worn)),
    ];
    assert!(rt; answers_so(rt.alloc(), 2, &steps) == Some(true));
}

// Whether a memory of one object with a field and a transient one, with values 10 and 30, answers all so.
fn answers_with_transient(alloc: Global, steps: &[Told]) -> Option<bool> {
    let fields = vec![in alloc; field(0, 10), transient(0, 30)].ok()?;
    let mut applied = Applied::new(alloc, 2, 2000, 1, fields, 9).ok()?;
    let other = first_other(&mut applied, steps);
    drop(applied);
    Some(other.is_none())
}

// No record tells of a store of a transient field, whoever holds its guard.
#[test]
fn a_store_of_a_transient_field_is_no_record(rt: HostRuntime) {
    let steps = [
        (0, put(1, 30, 31), Err(StoreError::BadId)),
        (0, acq(0, 0), Ok(())),
        (0, put(1, 30, 31), Err(StoreError::BadId)),
        (1, put(1, 30, 31), Err(StoreError::BadId)),
        (0, put(0, 10, 5), Ok(())),
        (0, put(2, 30, 31), Err(StoreError::BadId)),
        (0, rel(0, 0), Ok(())),
    ];
    assert!(rt; answers_with_transient(rt.alloc(), &steps) == Some(true));
}

// A wait inside a section, and one that ends it: in each case the lane takes the same object next, and does nothing else.
#[test]
fn a_wait_is_followed_by_its_acquire(rt: HostRuntime) {
    let steps = [
        (0, acq(0, 0), Ok(())),
        (0, acq(1, 0), Ok(())),
        (0, wait(0, 0), Ok(())),
        (0, put(1, 20, 5), Err(StoreError::NotNext)),
        (0, rel(1, 0), Err(StoreError::NotNext)),
        (0, acq(0, 1), Ok(())),
        (0, put(1, 20, 5), Ok(())),
        (0, rel(0, 1), Ok(())),
        (0, wait(1, 0), Ok(())),
        (0, acq(0, 2), Err(StoreError::NotNext)),
        (0, acq(1, 1), Ok(())),
    ];
    assert!(rt; answers_so(rt.alloc(), 9, &steps) == Some(true));
}

// A section of 1,000 records: the acquire, 998 stores, of which the next is refused, and the release.
fn section(applied: &mut Applied, number: u64) -> bool {
    let mut taken = applied.apply(Lane(0), acq(0, number)) == Ok(());
    for _ in 0..998 {
        taken = taken && applied.apply(Lane(0), put(0, 10, 10)) == Ok(());
    }
    taken = taken && applied.apply(Lane(0), put(0, 10, 10)) == Err(StoreError::TooLong);
    taken = taken && applied.apply(Lane(0), acq(1, 0)) == Err(StoreError::TooLong);
    taken && applied.apply(Lane(0), rel(0, number)) == Ok(())
}

// What one record more answers to two sections, and how many records are new; both again once they are logged; what another
// lane's take answers then, and whether a section is open.
type Filled = (
    [bool; 2],
    [(Result<(), StoreError>, usize); 2],
    Result<(), StoreError>,
    bool,
);

fn told_of_filled(alloc: Global) -> Option<Filled> {
    let mut applied = memory(alloc, 9)?;
    let told = filled(&mut applied);
    drop(applied);
    Some(told)
}

fn filled(applied: &mut Applied) -> Filled {
    let first = section(applied, 0);
    let second = section(applied, 1);
    let third = applied.apply(Lane(0), acq(0, 2));
    let new = (third, applied.fresh().len());
    applied.logged_all();
    let logged = applied.fresh().len();
    let third = applied.apply(Lane(0), acq(0, 2));
    let other = applied.apply(Lane(1), acq(0, 2));
    (
        [first, second],
        [new, (third, logged)],
        other,
        applied.any_open(),
    )
}

// An area of 2,000 records: two sections of 1,000 are taken, and a third doesn't begin, whether they are logged or not.
#[test]
fn sections_and_areas_have_an_end(rt: HostRuntime) {
    let full = Err(StoreError::LogFull);
    let wanted = ([true; 2], [(full, 2000), (full, 0)], Ok(()), true);
    assert!(rt; told_of_filled(rt.alloc()) == Some(wanted));
}

// Whether stores of two fields are taken; and the least dirty field then, once they are logged, and as each field is home.
fn told_of_dirty(alloc: Global) -> Option<(bool, [Option<FieldId>; 4])> {
    let mut applied = memory(alloc, 9)?;
    let told = least_dirty(&mut applied);
    drop(applied);
    Some(told)
}

fn least_dirty(applied: &mut Applied) -> (bool, [Option<FieldId>; 4]) {
    let steps = [
        (1, acq(0, 0), Ok(())),
        (1, acq(1, 0), Ok(())),
        (1, put(1, 20, 21), Ok(())),
        (1, put(0, 10, 11), Ok(())),
        (1, put(0, 11, 12), Ok(())),
    ];
    let are_taken = first_other(applied, &steps).is_none();
    let new = applied.least_dirty();
    applied.logged_all();
    let logged = applied.least_dirty();
    applied.home_written(FieldId(0));
    let second = applied.least_dirty();
    applied.home_written(FieldId(1));
    (are_taken, [new, logged, second, applied.least_dirty()])
}

// Stores are dirty once they are logged, the least field first, until they are home.
#[test]
fn logged_stores_are_dirty(rt: HostRuntime) {
    let least = [None, Some(FieldId(0)), Some(FieldId(1)), None];
    assert!(rt; told_of_dirty(rt.alloc()) == Some((true, least)));
}

fn entry(lane: u8, record: Record) -> LaneRecord {
    LaneRecord {
        lane: Lane(lane),
        record,
    }
}

// Whether these are taken, and are the new records then.
fn are_fresh(alloc: Global, records: &[LaneRecord]) -> Option<bool> {
    let mut applied = memory(alloc, 9)?;
    let are_fresh = are_applied(&mut applied, records) && applied.fresh() == records;
    drop(applied);
    Some(are_fresh)
}

fn are_applied(applied: &mut Applied, records: &[LaneRecord]) -> bool {
    for entry in records.iter().copied() {
        if applied.apply(entry.lane, entry.record).is_err() {
            return false;
        }
    }
    true
}

// Two lanes' records, told in turn.
#[test]
fn fresh_records_are_in_the_order_applied(rt: HostRuntime) {
    let records = [
        entry(1, acq(1, 0)),
        entry(0, acq(0, 0)),
        entry(1, put(1, 20, 21)),
    ];
    assert!(rt; are_fresh(rt.alloc(), &records) == Some(true));
}
