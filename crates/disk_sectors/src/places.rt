//! Two areas by turns: what a sync makes of them.
ghost use Rattle.std.specs.Prelude.{◌≡◌, ◌+◌, ◌^◌, ◌<◌, ◌≤◌, true, false, length, OnOk};
ghost use Rattle.block_disk.specs.Bytes.{spliced};
ghost use Rattle.disk_sectors.specs.Places.{first_sector};
ghost use Rattle.disk_sectors.specs.Size.{place_of};
ghost use Rattle.disk_sectors.specs.Marks.{StillRead};
ghost use Rattle.disk_sectors.specs.Frames.{WritesPlaces};
ghost use Rattle.disk_sectors.specs.Gates.{HasTurn, Keeps, LieOn, Settles, ShowsFirm, ShowsImage, Turns};

use crate::area::fill_area;
use crate::gate::{Gate, confirm, turn_gate};
use crate::marks::Marks;
use crate::sectors::Sectors;
use crate::size::SectorSize;
use block_disk::{Fault, put};
use std::mem::swap;

/// Makes the image durable. `fresh` are the marks of the area whose turn it is, `stale` those of the other. After a fault
/// nothing is forgotten: the next try writes again what is marked.
pub(crate) fn sync_places<S: Sectors>(
    sectors: &mut S,
    size: SectorSize,
    gate: &mut Gate,
    fresh: &mut Marks,
    stale: &mut Marks,
    image: &[u8],
) -> Result<(), Fault>
    requires size { S.of_size sectors.old ≡ size }
    requires count { length stale.old ≡ length fresh.old }
    requires reads { LieOn size fresh.old gate.old fresh.old stale.old image.now (S.device sectors.old) }
    ensures count { (length fresh.new ≡ length fresh.old) × (length stale.new ≡ length fresh.old) }
    ensures reads { LieOn size fresh.old gate.new fresh.new stale.new image.now (S.device sectors.new) }
    ensures crash { Keeps S.device size fresh.old image.now gate.old gate.new sectors.old sectors.new }
    ensures durable { Settles S.device size fresh.old image.now gate.old gate.new sectors.old sectors.new result }
    ensures any_moment { ShowsImage S.device size fresh.old image.now gate.old sectors.old sectors.new }
    ensures writes_only { WritesPlaces S.device S.of_size size fresh.old sectors.old sectors.new }
{
    // Where the gate may say either, both areas may be shown: it has to be firm before one of them is written.
    confirm(sectors, size, gate)?;
    fill_other(sectors, size, gate, fresh, stale, image)?;
    turn_gate(sectors, size, gate)
}

// Brings the area whose turn it isn't up to the image, durably. Then it is its turn, and the gate doesn't say so yet.
fn fill_other<S: Sectors>(
    sectors: &mut S,
    size: SectorSize,
    gate: &mut Gate,
    fresh: &mut Marks,
    stale: &mut Marks,
    image: &[u8],
) -> Result<(), Fault>
    requires size { S.of_size sectors.old ≡ size }
    requires firm { gate.old.is_firm ≡ true }
    requires count { length stale.old ≡ length fresh.old }
    requires reads { LieOn size fresh.old gate.old fresh.old stale.old image.now (S.device sectors.old) }
    ensures ok { OnOk result (gate.new.is_firm ≡ false) }
    ensures count { (length fresh.new ≡ length fresh.old) × (length stale.new ≡ length fresh.old) }
    ensures whole { OnOk result (HasTurn size fresh.old gate.new image.now (S.device sectors.new)) }
    ensures reads { LieOn size fresh.old gate.new fresh.new stale.new image.now (S.device sectors.new) }
    ensures crash { Turns S.device size fresh.old image.now gate.old gate.new sectors.old sectors.new }
    ensures any_moment { ShowsFirm S.device size fresh.old gate.old sectors.old sectors.new }
    ensures writes_only { WritesPlaces S.device S.of_size size fresh.old sectors.old sectors.new }
{
    let _sectors = sectors.count();
    let count = stale.count();
    let turn = !gate.turn;
    let first = first_of(count, turn);
    fill_area(sectors, size, first, stale, image)?;
    swap(fresh, stale);
    gate.turn = turn;
    gate.is_firm = false;
    Ok(())
}

// The number of an area's first sector.
pub(crate) fn first_of(count: usize, turn: bool) -> u64
    requires { count + 2 < 2 ^ 64 }
    ensures { result ≡ first_sector count turn }
{
    if turn { count as u64 + 2 } else { 2 }
}

/// Puts these bytes into the image, and marks their sectors, which neither area may hold any more.
pub(crate) fn write_image(
    fresh: &mut Marks,
    stale: &mut Marks,
    size: SectorSize,
    image: &mut Vec<u8>,
    at: u64,
    bytes: &[u8],
)
    requires fits { at + length bytes.now ≤ length image.old.items }
    requires long { length image.old.items ≡ place_of size (length fresh.old) }
    requires count { length stale.old ≡ length fresh.old }
    ensures image { image.new.items ≡ spliced image.old.items at bytes.now }
    ensures count { (length fresh.new ≡ length fresh.old) × (length stale.new ≡ length fresh.old) }
    ensures reads { StillRead size fresh.old stale.old image.old fresh.new stale.new image.new }
{
    fresh.mark(size, at as usize, bytes.len());
    stale.mark(size, at as usize, bytes.len());
    put(image, at, bytes);
}
