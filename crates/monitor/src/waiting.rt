//! Steps of a wait (JLS 17.2.1): the owner joins the wait set, frees the monitor, looks whether it was removed, and
//! takes the monitor again.

ghost use Rattle.std.specs.Prelude.{◌≡◌, ◌≢◌, ◌+◌, ◌<◌, IfOk, IfErr, MatchBool, Some};
ghost use Rattle.lock_word.specs.Spelling.{fat_sight};
ghost use Rattle.lock_word.specs.declared.fat_word.FatShape.TheVariants.{Held, Free};
ghost use Rattle.heap_model.specs.Own.{own};
ghost use Rattle.heap_model.specs.declared.event.Sight.TheVariants.{StillInSet};
ghost use Rattle.monitor.specs.declared.view.Mark.TheVariants.{Joined, Removed};
ghost use Rattle.monitor.specs.Words.{SLOTS, objects};
ghost use Rattle.monitor.specs.Views.{told, resumed, joined, removed, lane_of, slot_of, IsAwake, IsClear};
ghost use Rattle.monitor.specs.Seats.{IsSeatOf, HoldsFat, IsHeld};

use crate::seat::Seat;
use crate::shared::Shared;
use crate::view::View;
use atomic_table::Play;
use heap_model::{Event, ObjectId};
use lock_word::{FatWord, WaitMask};

/// A fetch-or of the lane's bit into a wait mask.
pub struct Joins;

impl Play<(), View> for Joins {
    ghost use Rattle.monitor.specs.Kinds.{joins};

    ghost then = { joins };
}

/// A store of a free fat word by a lane that has joined the wait set.
pub struct FatWaits;

impl Play<(), View> for FatWaits {
    ghost use Rattle.monitor.specs.Kinds.{fat_waits};

    ghost then = { fat_waits };
}

/// A load of a wait mask by a lane that waits.
pub struct Polls;

impl Play<(), View> for Polls {
    ghost use Rattle.monitor.specs.Kinds.{polls};

    ghost then = { polls };
}

/// A compare-exchange of a free fat word with one of the count kept aside.
pub struct FatResumes;

impl Play<(), View> for FatResumes {
    ghost use Rattle.monitor.specs.Kinds.{fat_resumes};

    ghost then = { fat_resumes };
}

impl Shared {
    /// The owner puts its own bit into the wait mask. No other lane acts on the bit before the monitor is free, so this
    /// adds no event: the wait begins with [`Shared::wait`]. One fetch-or.
    pub fn join_wait(&self, seat: &mut Seat, object: ObjectId)
        requires seat { IsSeatOf self.now seat.old }
        requires object { object.0 < objects self.now.plan }
        requires held { IsHeld seat.old.view object.0 }
        requires clear { IsClear seat.old.view }
        ensures seat { IsSeatOf self.now seat.new }
        // The step adds to the seat's view just what it tells.
        ensures told { seat.new.view ≡ joined seat.old.view object }
    {
        let place = self.mask_place(object);
        let bit = WaitMask::empty().with(seat.lane).bits();
        self.table
            .shared
            .fetch_or::<Joins>(&mut seat.seat, place, bit);
    }

    /// The owner, which has joined the wait set, frees the monitor and so waits (JLS 17.2.1). `word` is the fat
    /// lock that it holds; its count is kept aside. One store.
    pub fn wait(&self, seat: &mut Seat, object: ObjectId, slot: u32, word: FatWord)
        requires seat { IsSeatOf self.now seat.old }
        requires slot { slot < SLOTS }
        requires joined { seat.old.view.mark ≡ Joined object }
        requires awake { IsAwake seat.old.view }
        requires held { HoldsFat seat.old.view object slot word }
        ensures seat { IsSeatOf self.now seat.new }
        // The step adds to the seat's view just what it tells.
        ensures told { (a : _) × (n : _) × (word ≡ Held ((lane_of seat.old.view).0 + 1) a n) × (seat.new.view ≡ told seat.old.view (Event.Wait object n)) }
    {
        let shared = &self.table.shared;
        let _lane = seat.lane;
        let _ = object;
        let next = word.released();
        let place = self.fat_place(slot);
        shared.store::<FatWaits>(&mut seat.seat, place, next.bits());
    }

    /// Whether the seat's lane, which waits, is still in the wait set. At `false` it was removed, for good, and may take
    /// the monitor again. One load.
    pub fn poll_wait(&self, seat: &mut Seat, object: ObjectId) -> bool
        requires seat { IsSeatOf self.now seat.old }
        requires object { object.0 < objects self.now.plan }
        requires waits { (c : _) × ((own seat.old.view.events).pause ≡ Some (record { object = object.0; count = c })) }
        requires clear { IsClear seat.old.view }
        ensures seat { IsSeatOf self.now seat.new }
        // The step adds to the seat's view just what it tells.
        ensures told { MatchBool result (seat.new.view ≡ told seat.old.view (Event.Look object StillInSet)) (seat.new.view ≡ removed seat.old.view object) }
    {
        let place = self.mask_place(object);
        let lane = seat.lane;
        let found = self.table.shared.load::<Polls>(&mut seat.seat, place);
        let mask = WaitMask::parse(found).unwrap();
        let _ = mask.bits();
        mask.has(lane)
    }

    /// Takes the monitor again, by `again + 1` locks as before the wait, if its word is still free with this number.
    /// Returns the new word, or the word found. One compare-exchange.
    pub fn try_resume(
        &self,
        seat: &mut Seat,
        object: ObjectId,
        slot: u32,
        again: u16,
        number: u64,
    ) -> Result<FatWord, FatWord>
        requires seat { IsSeatOf self.now seat.old }
        requires fat { (slot_of object.0 seat.old.view.fats ≡ Some slot) × (slot < SLOTS) }
        requires number { number < self.now.plan.last }
        requires removed { seat.old.view.mark ≡ Removed object }
        requires waits { (own seat.old.view.events).pause ≡ Some (record { object = object.0; count = again + 1 }) }
        ensures seat { IsSeatOf self.now seat.new }
        ensures word { IfOk result (λ y. y ≡ Held ((lane_of seat.old.view).0 + 1) again number) }
        // A take adds just its event to the seat's view.
        ensures taken { IfOk result (λ y. seat.new.view ≡ resumed seat.old.view (Event.Resume object number)) }
        // A missed try tells the word that it found, and nothing else.
        ensures missed { IfErr result (λ y. seat.new.view ≡ told seat.old.view (Event.Look object (fat_sight y))) }
        // A missed try found another word than the free one that it tried.
        ensures differs { IfErr result (λ y. y ≢ Free number) }
    {
        let shared = &self.table.shared;
        let _ = object;
        let free = FatWord::free(number).bits();
        let taken = FatWord::held(seat.lane.0 + 1, again, number);
        let place = self.fat_place(slot);
        let found = shared.compare_exchange::<FatResumes>(
            &mut seat.seat,
            place,
            free,
            taken.bits(),
        );
        if found == free {
            Ok(taken)
        } else {
            Err(FatWord::parse(found).unwrap())
        }
    }
}
