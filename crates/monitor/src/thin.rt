//! Steps on an object's lock word, while it is thin (Thin Locks, PLDI 1998, section 2).

ghost use Rattle.std.specs.Prelude.{◌≡◌, ◌≢◌, ◌+◌, ◌<◌, IfOk, IfErr, None};
ghost use Rattle.lock_word.specs.declared.lock_word.Shape.TheVariants.{Thin, Free};
ghost use Rattle.lock_word.specs.LockWord.{CanNest, CanUnnest, nested, unnested};
ghost use Rattle.monitor.specs.Words.{objects};
ghost use Rattle.monitor.specs.Views.{told, lane_of, slot_of, IsAwake, IsClear};
ghost use Rattle.monitor.specs.Kinds.{looked, IsNews};
ghost use Rattle.monitor.specs.Seats.{IsSeatOf, HoldsThin};

use crate::seat::Seat;
use crate::shared::Shared;
use crate::view::View;
use atomic_table::Play;
use heap_model::{Event, ObjectId};
use lock_word::LockWord;

/// A load of a lock word.
pub struct Looks;

impl Play<(), View> for Looks {
    ghost use Rattle.monitor.specs.Kinds.{looks};

    ghost then = { looks };
}

/// A compare-exchange of a free lock word with a thin one.
pub struct Takes;

impl Play<(), View> for Takes {
    ghost use Rattle.monitor.specs.Kinds.{takes};

    ghost then = { takes };
}

/// A store of a thin lock word with one lock more.
pub struct Nests;

impl Play<(), View> for Nests {
    ghost use Rattle.monitor.specs.Kinds.{nests};

    ghost then = { nests };
}

/// A store of a thin lock word with one lock less.
pub struct Unnests;

impl Play<(), View> for Unnests {
    ghost use Rattle.monitor.specs.Kinds.{unnests};

    ghost then = { unnests };
}

/// A store of a free lock word in place of a thin one.
pub struct Leaves;

impl Play<(), View> for Leaves {
    ghost use Rattle.monitor.specs.Kinds.{leaves};

    ghost then = { leaves };
}

impl Shared {
    /// A look at the object's lock word. A fat one tells its slot alone, and that for good. One load.
    pub fn look(&self, seat: &mut Seat, object: ObjectId) -> LockWord
        requires seat { IsSeatOf self.now seat.old }
        requires object { object.0 < objects self.now.plan }
        requires clear { IsClear seat.old.view }
        ensures seat { IsSeatOf self.now seat.new }
        // The step adds to the seat's view just what it tells.
        ensures told { seat.new.view ≡ looked seat.old.view object result }
        // A look shows a thin word only of a monitor that isn't known to be fat. A fat word is the one that is known,
        // or is no news to the owner.
        ensures news { IsNews seat.old.view object result }
    {
        let place = self.lock_place(object);
        let found = self.table.shared.load::<Looks>(&mut seat.seat, place);
        LockWord::parse(found).unwrap()
    }

    /// Takes the monitor if its lock word is still free with this release number. Returns the new word, by one lock, or
    /// the word found. One compare-exchange.
    pub fn try_take(
        &self,
        seat: &mut Seat,
        object: ObjectId,
        number: u64,
    ) -> Result<LockWord, LockWord>
        requires seat { IsSeatOf self.now seat.old }
        requires object { object.0 < objects self.now.plan }
        requires number { number < self.now.plan.last }
        requires free { IsAwake seat.old.view × IsClear seat.old.view }
        ensures seat { IsSeatOf self.now seat.new }
        ensures word { IfOk result (λ x. (x ≡ Thin ((lane_of seat.old.view).0 + 1) 0 number) × (slot_of object.0 seat.old.view.fats ≡ None)) }
        // A take adds just its event to the seat's view.
        ensures taken { IfOk result (λ x. seat.new.view ≡ told seat.old.view (Event.Enter object number)) }
        // A missed try tells the word that it found, and nothing else.
        ensures missed { IfErr result (λ x. (seat.new.view ≡ looked seat.old.view object x) × IsNews seat.old.view object x) }
        // A missed try found another word than the free one that it tried.
        ensures differs { IfErr result (λ x. x ≢ Free number) }
    {
        let shared = &self.table.shared;
        let free = LockWord::free(number).bits();
        let taken = LockWord::thin(u16::from(seat.lane.0) + 1, 0, number);
        let place = self.lock_place(object);
        let found = shared.compare_exchange::<Takes>(&mut seat.seat, place, free, taken.bits());
        if found == free {
            Ok(taken)
        } else {
            Err(LockWord::parse(found).unwrap())
        }
    }

    /// One lock more. `word` is the thin lock that the seat holds. Returns the new one. One store.
    pub fn nest(&self, seat: &mut Seat, object: ObjectId, word: LockWord) -> LockWord
        requires seat { IsSeatOf self.now seat.old }
        requires object { object.0 < objects self.now.plan }
        requires free { IsAwake seat.old.view × IsClear seat.old.view }
        requires held { HoldsThin seat.old.view object word }
        requires room { CanNest word }
        ensures seat { IsSeatOf self.now seat.new }
        ensures word { result ≡ nested word }
        // The step adds just its event to the seat's view, with what the answer tells.
        ensures told { seat.new.view ≡ told seat.old.view (Event.NestedEnter object) }
    {
        let next = word.nested();
        let place = self.lock_place(object);
        self.table
            .shared
            .store::<Nests>(&mut seat.seat, place, next.bits());
        next
    }

    /// One lock less, which isn't the last. `word` is the thin lock that the seat holds. Returns the new one. One store.
    pub fn unnest(&self, seat: &mut Seat, object: ObjectId, word: LockWord) -> LockWord
        requires seat { IsSeatOf self.now seat.old }
        requires object { object.0 < objects self.now.plan }
        requires free { IsAwake seat.old.view × IsClear seat.old.view }
        requires held { HoldsThin seat.old.view object word }
        requires deep { CanUnnest word }
        ensures seat { IsSeatOf self.now seat.new }
        ensures word { result ≡ unnested word }
        // The step adds just its event to the seat's view, with what the answer tells.
        ensures told { seat.new.view ≡ told seat.old.view (Event.NestedExit object) }
    {
        let next = word.unnested();
        let place = self.lock_place(object);
        self.table
            .shared
            .store::<Unnests>(&mut seat.seat, place, next.bits());
        next
    }

    /// The last unlock, by which the monitor becomes free with the next release number. `word` is the thin lock that the
    /// seat holds. One store.
    pub fn release(&self, seat: &mut Seat, object: ObjectId, word: LockWord)
        requires seat { IsSeatOf self.now seat.old }
        requires object { object.0 < objects self.now.plan }
        requires free { IsAwake seat.old.view × IsClear seat.old.view }
        requires held { HoldsThin seat.old.view object word }
        requires last { (n : _) × (word ≡ Thin ((lane_of seat.old.view).0 + 1) 0 n) }
        ensures seat { IsSeatOf self.now seat.new }
        // The step adds just its event to the seat's view, with what the answer tells.
        ensures told { (n : _) × (word ≡ Thin ((lane_of seat.old.view).0 + 1) 0 n) × (seat.new.view ≡ told seat.old.view (Event.Exit object n)) }
    {
        let shared = &self.table.shared;
        let _lane = seat.lane;
        let next = word.released();
        let place = self.lock_place(object);
        shared.store::<Leaves>(&mut seat.seat, place, next.bits());
    }
}
