//! Nobody goes on, and nothing more is applied.
ghost use Rattle.std.specs.Prelude.{◌≡◌, ◌≤◌, ◌++◌, [], ℕ};
ghost use Rattle.heap_model.specs.Setting.{Setting};
ghost use Rattle.heap_model.specs.Past.{Past};
ghost use Rattle.trim_helper.specs.Endings.{AreEnded, parts_of};
ghost use Rattle.trim_helper.specs.Helping.{IsHelper, count_published, taken_in};
ghost use Rattle.trim_helper.specs.Leaving.{HasLeft, HaveSeats, ReadNoMore};
ghost use Rattle.trim_helper.specs.Parts.{IsServing};
ghost use Rattle.trim_helper.specs.Seen.{SameSight};
ghost use Rattle.trim_helper.specs.Serving.{Among, Part};

use crate::ended::Ended;
use crate::helper::Helper;
use crate::published::{close, gather};
use block_disk::Disk;
use monitor::{HelperSeat, Shared};

/// Ends the sharing of the words, and gives the device back as it is. Nothing of what the sessions still had in their rings is applied,
/// so that a crash now may lose it. It may be called whether the helper's last round was refused or not, and whether or not the sessions
/// hold monitors.
pub fn leave<D: Disk>(shared: Shared, ended: Vec<Ended>, helper: Helper<D>) -> D
    requires helper { IsHelper shared helper.seat }
    requires ended { AreEnded shared helper.store.known.layout.capacity helper.rings ended.items }
    requires nothing { taken_in helper.seat ≡ [] }
    // When threads leave a heap without closing it, its device comes back as it was.
    ensures disk { result ≡ helper.store.disk }
    // When threads leave a heap without closing it, one legal history has what each session was told as its part.
    ensures history { HasLeft shared.plan (parts_of ended.items) helper.seat }
    // When threads leave a heap without closing it, no session has read as stable more sections than are acknowledged.
    ensures read { (s : Setting) (p : Past) → IsServing D.device helper s p → ReadNoMore (parts_of ended.items) helper.store.known.threads p }
{
    let Helper {
        store,
        rings,
        waiting,
        seat,
        is_settled: _,
    } = helper;
    drop(waiting);
    drop(rings);
    end_sharing(shared, ended, seat);
    store.into_disk()
}

// Takes in the seats of these sessions, and ends the sharing of the words.
fn end_sharing(shared: Shared, ended: Vec<Ended>, mut seat: HelperSeat)
    requires helper { IsHelper shared seat }
    requires seats { HaveSeats shared ended.items }
    requires nothing { taken_in seat ≡ [] }
    ensures history { HasLeft shared.plan (parts_of ended.items) seat }
    ensures read { (x : Part) → Among (parts_of ended.items) x → x.count ≤ count_published seat x.lane }
{
    gather_all(&shared, ended, &mut seat);
    drop(close(shared, seat));
}

// Takes in the seat of each of these sessions.
fn gather_all(shared: &Shared, ended: Vec<Ended>, seat: &mut HelperSeat)
    requires helper { IsHelper shared.now seat.old }
    requires seats { HaveSeats shared.now ended.items }
    ensures helper { IsHelper shared.now seat.new }
    ensures count { (l : ℕ) → count_published seat.new l ≡ count_published seat.old l }
    ensures gathered { taken_in seat.new ≡ parts_of ended.items ++ taken_in seat.old }
    ensures sight { SameSight seat.old seat.new }
{
    let mut left = ended;
    'ends: while let Some(one) = left.pop() {
        let Ended { seat: other, .. } = one;
        gather(shared, seat, other);
    }
}
