//! The sections.
ghost use Rattle.std.specs.Prelude.{◌≡◌, ◌≢◌, ◌+◌, ◌-◌, ◌<◌, ◌≤◌, ◌^◌, ℕ, All, length, slice_index_or};
ghost use Rattle.std.specs.Vec.{vec_capacity, vec_len};
ghost use Rattle.store_round_sections.specs.Adding.{AddsLoggable, AddsSections};
ghost use Rattle.store_round_sections.specs.Sections.{HasNumber, IsRunStart, IsSortedByGuard, added_at, guard_of, first_in, needed_of};
ghost use Rattle.store_round_image.specs.declared.cells.HomeValue.{HomeValue};

use crate::sorting::guard_of;
use heap_model::{ObjectId, UndoRecord};
use std::alloc::Global;
use store_round_image::HomeValue;
use store_round_making::push_section;

/// How many records the sections of these changed fields take: one a field, and two a section.
pub fn needed(changed: &[HomeValue], guards: &[ObjectId]) -> usize
    // The sections take as many records as are told: one for each changed field, and two for each run of one guard.
    ensures { result ≡ needed_of guards.now changed.now }
{
    let mut records = 0;
    for done in 0..changed.len() {
        records += taken_at(changed, guards, changed.len() - 1 - done);
    }
    records
}

// How many records this changed field takes, and its section where it is the run's last.
fn taken_at(changed: &[HomeValue], guards: &[ObjectId], at: usize) -> usize
    requires { at < length changed.now }
    ensures { (d : HomeValue) → result ≡ added_at guards.now changed.now at d }
{
    if at + 1 == changed.len()
        || guard_of(guards, changed[at + 1]) != guard_of(guards, changed[at])
    {
        3
    } else {
        1
    }
}

/// Adds the helper's sections for these changed fields, which stand in the order of their guards: one a guard. `guards` has each
/// field's guard. `first` has by object one more than the number at which a record beyond the cut takes it first, or 0 where none does.
/// Each section takes its guard just before that record.
pub fn push_sections(
    records: &mut Vec<UndoRecord>,
    changed: &[HomeValue],
    guards: &[ObjectId],
    first: &[u64],
)
    requires room { vec_len records.old + needed_of guards.now changed.now ≤ vec_capacity records.old }
    requires sorted { IsSortedByGuard guards.now changed.now }
    requires numbers { All (HasNumber guards.now first.now) changed.now }
    // The records of the helper's sections of the changed fields are added. They may come before what the cut doesn't keep, and store to
    // the changed fields and no others.
    ensures sections { AddsSections guards.now first.now changed.now records.old.items records.new.items }
    // An image with the setting's objects and fields may have each of the added records.
    ensures loggable { AddsLoggable guards.now first.now changed.now }
    ensures len { vec_len records.new ≡ vec_len records.old + needed_of guards.now changed.now }
    ensures capacity { vec_capacity records.new ≡ vec_capacity records.old }
{
    let mut end = changed.len();
    while end > 0 {
        let begin = run_start(changed, guards, end);
        let guard = guard_of(guards, changed[begin]);
        push_section(
            records,
            guard,
            first_number(first, guard),
            &changed[begin..end],
        );
        end = begin;
    }
}

// Where the run of changed fields with one guard begins that ends here.
fn run_start(changed: &[HomeValue], guards: &[ObjectId], end: usize) -> usize
    requires some { 0 < end }
    requires within { end ≤ length changed.now }
    ensures run { IsRunStart guards.now changed.now end result }
    ensures words { (k : ℕ) (d : HomeValue) → result ≤ k → k < end → (slice_index_or changed.now k d).value < 2 ^ 64 }
{
    let guard = guard_of(guards, changed[end - 1]);
    for run in 1..end {
        if guard_of(guards, changed[end - 1 - run]) != guard {
            return end - run;
        }
    }
    0
}

// The number at which the object is taken first, as `first` tells it.
fn first_number(first: &[u64], object: ObjectId) -> Option<u64>
    ensures { result ≡ first_in first.now object.0 }
{
    match first.get(object.0 as usize) {
        Some(next) if *next > 0 => Some(*next - 1),
        _ => None,
    }
}
