//! Steps on the words of fields.

ghost use Rattle.std.specs.Prelude.{◌≡◌, ◌<◌, ℕ, Some};
ghost use Rattle.monitor.specs.Words.{fields, setting_of};
ghost use Rattle.monitor.specs.Views.{told, IsAwake, IsClear};
ghost use Rattle.heap_model.specs.Known.{known_value};
ghost use Rattle.monitor.specs.Seats.{IsSeatOf, IsHeld};

use crate::seat::Seat;
use crate::shared::Shared;
use crate::view::View;
use atomic_table::Play;
use heap_model::{Event, FieldId};

/// A load of a field's word.
pub struct Reads;

impl Play<(), View> for Reads {
    ghost use Rattle.monitor.specs.Kinds.{reads};

    ghost then = { reads };
}

/// A swap of a field's word.
pub struct Writes;

impl Play<(), View> for Writes {
    ghost use Rattle.monitor.specs.Kinds.{writes};

    ghost then = { writes };
}

impl Shared {
    /// Loads a field whose guard the seat holds. One load.
    pub fn read_field(&self, seat: &mut Seat, field: FieldId) -> u64
        requires seat { IsSeatOf self.now seat.old }
        requires field { field.0 < fields self.now.plan }
        requires free { IsAwake seat.old.view × IsClear seat.old.view }
        requires held { IsHeld seat.old.view ((setting_of self.now.plan).guard field.0) }
        ensures seat { IsSeatOf self.now seat.new }
        // The step adds to the seat's view just what it tells.
        ensures told { seat.new.view ≡ told seat.old.view (Event.Load field result) }
        // A load gives the value that the lane's own events tell of the field.
        ensures known { (value : ℕ) → known_value (setting_of self.now.plan) seat.old.view.events field.0 ≡ Some value → result ≡ value }
    {
        let place = self.field_place(field);
        self.table.shared.load::<Reads>(&mut seat.seat, place)
    }

    /// Stores a field whose guard the seat holds. Returns the value before. One swap.
    pub fn write_field(&self, seat: &mut Seat, field: FieldId, value: u64) -> u64
        requires seat { IsSeatOf self.now seat.old }
        requires field { field.0 < fields self.now.plan }
        requires free { IsAwake seat.old.view × IsClear seat.old.view }
        requires held { IsHeld seat.old.view ((setting_of self.now.plan).guard field.0) }
        ensures seat { IsSeatOf self.now seat.new }
        // The step adds just its event to the seat's view, with what the answer tells.
        ensures told { seat.new.view ≡ told seat.old.view (Event.Store field result value) }
    {
        let place = self.field_place(field);
        self.table
            .shared
            .swap::<Writes>(&mut seat.seat, place, value)
    }
}
