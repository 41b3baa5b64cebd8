//! The gate, which says whose turn it is of two areas.
ghost use Rattle.std.specs.Prelude.{◌≡◌, ◌<◌, ◌≤◌, [], true, false, length, nat_eq, slice_index, OnErr, OnOk};
ghost use Rattle.disk_sectors.specs.Places.{turn_of};
ghost use Rattle.disk_sectors.specs.Size.{bytes_in, place_of};
ghost use Rattle.disk_sectors.specs.Frames.{WritesGate};
ghost use Rattle.disk_sectors.specs.Gates.{HoldsOn, ShowsOn, unsure};

use crate::access::{put_sector, settle};
use crate::sectors::Sectors;
use crate::size::SectorSize;
use block_disk::Fault;

// The number of the gate's sector.
const GATE: u64 = 1;

/// Whose turn it is of two areas: the second's, if `turn` is true. Where it isn't firm, the gate on the device may say either.
#[derive(Clone, Copy)]
pub(crate) struct Gate {
    pub(crate) turn: bool,
    pub(crate) is_firm: bool,
}

/// Makes the gate say whose turn it is, durably, unless it is known to.
pub(crate) fn confirm<S: Sectors>(
    sectors: &mut S,
    size: SectorSize,
    gate: &mut Gate,
) -> Result<(), Fault>
    requires size { S.of_size sectors.old ≡ size }
    requires fits { place_of size 2 ≤ length (S.device sectors.old).now.bytes }
    ensures ok { OnOk result (gate.new.is_firm ≡ true) }
    ensures turn { gate.new.turn ≡ gate.old.turn }
    ensures writes_only { WritesGate S.device S.of_size size sectors.old sectors.new }
    ensures crash { HoldsOn S.device size gate.old gate.new sectors.old sectors.new }
    ensures any_moment { ShowsOn S.device size gate.old sectors.old sectors.new }
{
    let is_firm = gate.is_firm;
    if is_firm {
        return Ok(());
    }
    turn_gate(sectors, size, gate)
}

/// Makes the gate say whose turn it is, durably. Until then either may be: both areas have to be right.
pub(crate) fn turn_gate<S: Sectors>(
    sectors: &mut S,
    size: SectorSize,
    gate: &mut Gate,
) -> Result<(), Fault>
    requires size { S.of_size sectors.old ≡ size }
    requires fits { place_of size 2 ≤ length (S.device sectors.old).now.bytes }
    requires waits { gate.old.is_firm ≡ false }
    ensures ok { OnOk result (gate.new.is_firm ≡ true) }
    ensures err { OnErr result (gate.new.is_firm ≡ false) }
    ensures turn { gate.new.turn ≡ gate.old.turn }
    ensures durable { OnOk result ((S.device sectors.new).now.pending ≡ []) }
    ensures writes_only { WritesGate S.device S.of_size size sectors.old sectors.new }
    ensures crash { HoldsOn S.device size (unsure gate.old) gate.new sectors.old sectors.new }
    ensures any_moment { ShowsOn S.device size (unsure gate.old) sectors.old sectors.new }
{
    put_gate(sectors, size, gate.turn)?;
    gate.is_firm = true;
    Ok(())
}

/// Makes the gate say so, durably. Until then it may say either. What has failed is tried once more, at once: who opens the device next may be
/// given what was written, and not what the device has, and could do nothing about it (DECISIONS.md).
pub(crate) fn put_gate<S: Sectors>(
    sectors: &mut S,
    size: SectorSize,
    turn: bool,
) -> Result<(), Fault>
    requires size { S.of_size sectors.old ≡ size }
    requires fits { place_of size 2 ≤ length (S.device sectors.old).now.bytes }
    ensures durable { OnOk result ((S.device sectors.new).now.pending ≡ []) }
    ensures turned { OnOk result (turn_of size (S.device sectors.new).now.bytes ≡ turn) }
    ensures writes_only { WritesGate S.device S.of_size size sectors.old sectors.new }
{
    match put_gate_once(sectors, size, turn) {
        Ok(()) => Ok(()),
        Err(_) => put_gate_once(sectors, size, turn),
    }
}

// Tries so once.
fn put_gate_once<S: Sectors>(sectors: &mut S, size: SectorSize, turn: bool) -> Result<(), Fault>
    requires size { S.of_size sectors.old ≡ size }
    requires fits { place_of size 2 ≤ length (S.device sectors.old).now.bytes }
    ensures durable { OnOk result ((S.device sectors.new).now.pending ≡ []) }
    ensures turned { OnOk result (turn_of size (S.device sectors.new).now.bytes ≡ turn) }
    ensures writes_only { WritesGate S.device S.of_size size sectors.old sectors.new }
{
    say_gate(sectors, size, turn)?;
    // The gate has to be durable before an area is written that it may show.
    settle(sectors)
}

// Writes the gate, a whole sector of which the first byte counts.
fn say_gate<S: Sectors>(sectors: &mut S, size: SectorSize, turn: bool) -> Result<(), Fault>
    requires size { S.of_size sectors.old ≡ size }
    requires fits { place_of size 2 ≤ length (S.device sectors.old).now.bytes }
    ensures turned { OnOk result (turn_of size (S.device sectors.new).now.bytes ≡ turn) }
    ensures writes_only { WritesGate S.device S.of_size size sectors.old sectors.new }
{
    let mut room = [0u8; 4096];
    match size {
        SectorSize::Bytes512 => say_in(sectors, size, turn, &mut room[..512]),
        SectorSize::Bytes4096 => say_in(sectors, size, turn, &mut room),
    }
}

// Writes the gate, by way of these bytes.
fn say_in<S: Sectors>(
    sectors: &mut S,
    size: SectorSize,
    turn: bool,
    bytes: &mut [u8],
) -> Result<(), Fault>
    requires size { S.of_size sectors.old ≡ size }
    requires whole { length bytes.old ≡ bytes_in size }
    requires fits { place_of size 2 ≤ length (S.device sectors.old).now.bytes }
    ensures turned { OnOk result (turn_of size (S.device sectors.new).now.bytes ≡ turn) }
    ensures writes_only { WritesGate S.device S.of_size size sectors.old sectors.new }
{
    say_turn(turn, bytes);
    put_sector(sectors, size, GATE, bytes)
}

// Says so in the gate's bytes.
fn say_turn(turn: bool, bytes: &mut [u8])
    requires { 0 < length bytes.old }
    ensures { nat_eq (slice_index bytes.new 0) 1 ≡ turn }
{
    bytes[0] = u8::from(turn);
}
