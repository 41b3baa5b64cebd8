//! Changed fields, by their guards.
ghost use Rattle.std.specs.Prelude.{◌≡◌, ◌<◌, ◌^◌, length};
ghost use Rattle.std.specs.List.Sorted.{IsPermutation};
ghost use Rattle.store_round_sections.specs.Sections.{IsSortedByGuard, IsSortedWithinGuards, guard_of};

use heap_model::ObjectId;
use store_round_image::HomeValue;

/// Sorts the changed fields by their guards, and those of one guard by their numbers, in place. `guards` has each field's guard.
pub fn sort_by_guard(changed: &mut [HomeValue], guards: &[ObjectId])
    // Sorting the changed fields only moves them.
    ensures permutation { IsPermutation changed.old changed.new }
    // The changed fields end up in the order of their guards.
    ensures sorted { IsSortedByGuard guards.now changed.new }
    // Those of one guard end up in the order of their numbers.
    ensures within { IsSortedWithinGuards guards.now changed.new }
    ensures size { length changed.new ≡ length changed.old }
{
    changed.sort_unstable_by_key(|change| (guard_of(guards, *change).0, change.field.0));
}

/// The guard of a changed field; object 0 where there is none.
pub(crate) fn guard_of(guards: &[ObjectId], change: HomeValue) -> ObjectId
    ensures guard { result ≡ guard_of guards.now change }
    ensures word { change.value < 2 ^ 64 }
{
    match guards.get(change.field.0 as usize) {
        Some(guard) => *guard,
        None => ObjectId(0),
    }
}
