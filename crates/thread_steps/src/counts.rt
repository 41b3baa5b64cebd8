//! The words that only rise: the count of fat slots, and the published numbers.

ghost use Rattle.std.specs.Prelude.{◌≡◌, ◌<◌, ◌≤◌, [], true, false};
ghost use Rattle.thread_steps.specs.Views.{view, IsSeatOf, KeepsEach, Lengthens};

use lock_word::FAT_SLOTS;
use monitor::{Seat, Shared};

/// Whether a fat slot is left, by a look at their count. One load.
pub fn has_slot(shared: &Shared, seat: &mut Seat) -> bool
    requires seat { IsSeatOf shared.now seat.old }
    ensures seat { IsSeatOf shared.now seat.new }
    ensures mark { (view seat.new).mark ≡ (view seat.old).mark }
    ensures told { Lengthens (view seat.old) (view seat.new) [] }
    ensures some { result ≡ true → (view seat.new).slots < FAT_SLOTS }
    ensures none { result ≡ false → FAT_SLOTS ≤ (view seat.new).slots }
    ensures grips { KeepsEach (view seat.old) (view seat.new) }
{
    shared.count_slots(seat) < u64::from(FAT_SLOTS)
}

/// How many sections of the seat's lane are published as acknowledged. One load.
pub fn read_stable(shared: &Shared, seat: &mut Seat) -> u64
    requires seat { IsSeatOf shared.now seat.old }
    ensures seat { IsSeatOf shared.now seat.new }
    ensures mark { (view seat.new).mark ≡ (view seat.old).mark }
    ensures told { Lengthens (view seat.old) (view seat.new) [] }
    // A view counts how often it has read the number.
    ensures looked { (view seat.old).stable_looks < (view seat.new).stable_looks }
    ensures read { (view seat.new).stable ≡ result }
    ensures grips { KeepsEach (view seat.old) (view seat.new) }
{
    shared.read_stable(seat)
}

/// The place, counted in records, up to which the log of the seat's lane is published as trimmed. One load.
pub fn read_trimmed(shared: &Shared, seat: &mut Seat) -> u64
    requires seat { IsSeatOf shared.now seat.old }
    ensures seat { IsSeatOf shared.now seat.new }
    ensures mark { (view seat.new).mark ≡ (view seat.old).mark }
    ensures told { Lengthens (view seat.old) (view seat.new) [] }
    // A view counts how often it has read the number.
    ensures looked { (view seat.old).trimmed_looks < (view seat.new).trimmed_looks }
    ensures read { (view seat.new).trimmed ≡ result }
    ensures grips { KeepsEach (view seat.old) (view seat.new) }
{
    shared.read_trimmed(seat)
}
