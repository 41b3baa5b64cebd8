//! Reading what a device stands for, and making it stand for zeros.
ghost use Rattle.std.specs.Prelude.{◌≡◌, ◌≢◌, ◌↔◌, ◌+◌, ◌^◌, ◌<◌, ◌≤◌, [], true, false, IsFalse, IsTrue, length, replicate, IfErr, IfOk, IsErrOf, OnOk};
ghost use Rattle.disk_sectors.specs.Places.{IsAsFound, turn_of};
ghost use Rattle.disk_sectors.specs.declared.error.PlacesError.TheVariants.{TooSmall};
ghost use Rattle.disk_sectors.specs.Size.{bytes_in, place_of, zeros_in};
ghost use Rattle.disk_sectors.specs.Opened.{IsLaid, IsShown, LiesOn};
ghost use Rattle.disk_sectors.specs.Access.{HasSector};
ghost use Rattle.disk_sectors.specs.Turns.{HasRoom, KeepsBeyond, LacksRoom};
ghost use Rattle.disk_sectors.specs.Refusals.{IsUntouched};
ghost use Rattle.disk_sectors.specs.Frames.{OnlyReads};
ghost use Rattle.disk_sectors.specs.Areas.{IsRead, TakesSector};
ghost use Rattle.disk_sectors.specs.Labels.{HasLabel};

use crate::access::{get_sector, settle};
use crate::area::fill_area;
use crate::error::{PlacesError, SectorError};
use crate::gate::{Gate, put_gate};
use crate::label::{LABEL_BYTES, Label, put_label};
use crate::marks::Marks;
use crate::places::first_of;
use crate::sectors::Sectors;
use crate::size::SectorSize;
use block_disk::{Fault, overwrite};
use std::alloc::Global;

/// A disk's bytes, and what is known of the areas of the device that it lies on.
#[derive(Drop)]
pub(crate) struct Found {
    pub(crate) image: Vec<u8>,
    pub(crate) fresh: Marks,
    pub(crate) stale: Marks,
    pub(crate) gate: Gate,
}

/// What stops the reading or the making of the areas, where there is room for them.
#[derive(Clone, Copy)]
pub(crate) enum Halt {
    Fault,
    NoMemory,
}

fn told_of(halt: Halt) -> PlacesError
    ensures { result ≢ TooSmall }
{
    match halt {
        Halt::Fault => PlacesError::Fault,
        Halt::NoMemory => PlacesError::NoMemory,
    }
}

/// What the device stands for, a disk of so many sectors. It is flushed before it is read, so that this is what a crash leaves.
///
/// `TooSmall` is tried first.
pub(crate) fn find_places<S: Sectors>(
    alloc: Global,
    sectors: &mut S,
    size: SectorSize,
    count: usize,
) -> Result<Found, PlacesError>
    requires size { S.of_size sectors.old ≡ size }
    ensures too_small { IsErrOf result TooSmall ↔ LacksRoom size count (S.device sectors.old) }
    ensures image { IfOk result (λ found. IsShown size count found.image.items (S.device sectors.old)) }
    ensures count { IfOk result (λ found. length found.fresh ≡ count) }
    ensures kept { IfOk result (λ found. LiesOn size found (S.device sectors.new)) }
    ensures left { IsAsFound (S.device sectors.old) (S.device sectors.new) }
    ensures size { S.of_size sectors.new ≡ size }
{
    if !has_room(sectors, size, count) {
        return Err(PlacesError::TooSmall);
    }
    match read_places(alloc, sectors, size, count) {
        Ok(found) => Ok(found),
        Err(halt) => Err(told_of(halt)),
    }
}

// The same, where there is room.
fn read_places<S: Sectors>(
    alloc: Global,
    sectors: &mut S,
    size: SectorSize,
    count: usize,
) -> Result<Found, Halt>
    requires size { S.of_size sectors.old ≡ size }
    requires fits { HasRoom size count (S.device sectors.old) }
    ensures image { IfOk result (λ found. IsShown size count found.image.items (S.device sectors.old)) }
    ensures count { IfOk result (λ found. length found.fresh ≡ count) }
    ensures kept { IfOk result (λ found. LiesOn size found (S.device sectors.new)) }
    ensures left { IsAsFound (S.device sectors.old) (S.device sectors.new) }
    ensures size { S.of_size sectors.new ≡ size }
{
    match settle(sectors) {
        Ok(()) => {}
        Err(_) => return Err(Halt::Fault),
    }
    let turn = read_gate(sectors, size)?;
    let _sectors = sectors.count();
    let first = first_of(count, turn);
    let image = read_area(alloc, sectors, size, first, count)?;
    let fresh = mark_each(alloc, count, false)?;
    let stale = mark_each(alloc, count, true)?;
    Ok(Found {
        image,
        fresh,
        stale,
        gate: Gate {
            turn,
            is_firm: true,
        },
    })
}

/// Makes the device stand for a disk of so many sectors, of zeros, and begin with the label of one. `TooSmall` is tried first.
pub(crate) fn make_places<S: Sectors>(
    alloc: Global,
    sectors: &mut S,
    size: SectorSize,
    count: usize,
) -> Result<Found, PlacesError>
    requires size { S.of_size sectors.old ≡ size }
    ensures too_small { IsErrOf result TooSmall ↔ LacksRoom size count (S.device sectors.old) }
    ensures image { IfOk result (λ found. found.image.items ≡ zeros_in size count) }
    ensures count { IfOk result (λ found. length found.fresh ≡ count) }
    ensures kept { IfOk result (λ found. LiesOn size found (S.device sectors.new)) }
    ensures labelled { OnOk result (HasLabel size count (S.device sectors.new)) }
    ensures durable { OnOk result ((S.device sectors.new).now.pending ≡ []) }
    ensures untouched { IfErr result (λ why. IsUntouched S.device why sectors.old sectors.new) }
    ensures beyond { KeepsBeyond size count (S.device sectors.old) (S.device sectors.new) }
    ensures size { S.of_size sectors.new ≡ size }
{
    if !has_room(sectors, size, count) {
        return Err(PlacesError::TooSmall);
    }
    let _sectors = sectors.count();
    let mut found = match begin_places(alloc, size, count) {
        Ok(found) => found,
        Err(halt) => return Err(told_of(halt)),
    };
    match lay_places(
        sectors,
        size,
        count,
        &mut found.fresh,
        &found.stale,
        &found.image,
    ) {
        Ok(()) => Ok(found),
        Err(_) => Err(PlacesError::Fault),
    }
}

// A disk of zeros, of which no area holds anything yet.
fn begin_places(alloc: Global, size: SectorSize, count: usize) -> Result<Found, Halt>
    requires { place_of size count < 2 ^ 64 }
    ensures image { IfOk result (λ found. found.image.items ≡ zeros_in size count) }
    ensures fresh { IfOk result (λ found. found.fresh ≡ replicate count true) }
    ensures stale { IfOk result (λ found. found.stale ≡ replicate count true) }
    ensures gate { IfOk result (λ found. (found.gate.is_firm ≡ true) × (found.gate.turn ≡ false)) }
{
    let image = zeros(alloc, size, count)?;
    let fresh = mark_each(alloc, count, true)?;
    let stale = mark_each(alloc, count, true)?;
    Ok(Found {
        image,
        fresh,
        stale,
        gate: Gate {
            turn: false,
            is_firm: true,
        },
    })
}

// Makes the device stand for this image, by its first area, and begin with the label. It has no label until then.
fn lay_places<S: Sectors>(
    sectors: &mut S,
    size: SectorSize,
    count: usize,
    fresh: &mut Marks,
    stale: &Marks,
    image: &[u8],
) -> Result<(), Fault>
    requires size { S.of_size sectors.old ≡ size }
    requires fits { HasRoom size count (S.device sectors.old) }
    requires long { length image.now ≡ place_of size count }
    requires fresh { fresh.old ≡ replicate count true }
    requires stale { stale.now ≡ replicate count true }
    ensures count { length fresh.new ≡ count }
    ensures kept { OnOk result (IsLaid size fresh.new stale.now image.now (S.device sectors.new)) }
    ensures labelled { OnOk result (HasLabel size count (S.device sectors.new)) }
    ensures durable { OnOk result ((S.device sectors.new).now.pending ≡ []) }
    ensures beyond { KeepsBeyond size count (S.device sectors.old) (S.device sectors.new) }
    ensures size { S.of_size sectors.new ≡ size }
{
    let label = Label {
        size,
        count: count as u64,
    };
    // What a crash leaves of the making must not be taken for a disk that was made.
    put_label(sectors, size, &[0; LABEL_BYTES])?;
    fill_area(sectors, size, 2, fresh, image)?;
    put_gate(sectors, size, false)?;
    put_label(sectors, size, &label.bytes())
}

// Whether the device has sectors enough for a label, a gate and two areas of so many.
fn has_room<S: Sectors>(sectors: &S, size: SectorSize, count: usize) -> bool
    requires size { S.of_size sectors.now ≡ size }
    ensures enough { IsTrue result → HasRoom size count (S.device sectors.now) }
    ensures wanting { IsFalse result → LacksRoom size count (S.device sectors.now) }
{
    let most = sectors.count();
    if most < 2 {
        return false;
    }
    let room = (most - 2) / 2;
    let wanted = count as u64;
    if room < wanted {
        return false;
    }
    true
}

fn mark_each(alloc: Global, count: usize, are_marked: bool) -> Result<Marks, Halt>
    ensures { IfOk result (λ m. m ≡ replicate count are_marked) }
{
    match Marks::all(alloc, count, are_marked) {
        Ok(marks) => Ok(marks),
        Err(_) => Err(Halt::NoMemory),
    }
}

fn zeros(alloc: Global, size: SectorSize, count: usize) -> Result<Vec<u8>, Halt>
    requires { place_of size count < 2 ^ 64 }
    ensures { IfOk result (λ bytes. bytes.items ≡ zeros_in size count) }
{
    let len = count * size.bytes();
    match vec![in alloc; 0u8; len] {
        Ok(bytes) => Ok(bytes),
        Err(_) => Err(Halt::NoMemory),
    }
}

// Whose turn it is.
fn read_gate<S: Sectors>(sectors: &mut S, size: SectorSize) -> Result<bool, Halt>
    requires size { S.of_size sectors.old ≡ size }
    requires fits { place_of size 2 ≤ length (S.device sectors.old).now.bytes }
    ensures turn { IfOk result (λ turn. turn ≡ turn_of size (S.device sectors.old).now.bytes) }
    ensures reads_only { OnlyReads S.device S.of_size size sectors.old sectors.new }
{
    let mut room = [0u8; 4096];
    match size {
        SectorSize::Bytes512 => read_turn(sectors, size, &mut room[..512]),
        SectorSize::Bytes4096 => read_turn(sectors, size, &mut room),
    }
}

// The same, by way of these bytes. A gate that can't be read was being turned: either turn is right, and none is the first area's.
fn read_turn<S: Sectors>(sectors: &mut S, size: SectorSize, bytes: &mut [u8]) -> Result<bool, Halt>
    requires size { S.of_size sectors.old ≡ size }
    requires whole { length bytes.old ≡ bytes_in size }
    requires fits { place_of size 2 ≤ length (S.device sectors.old).now.bytes }
    ensures turn { IfOk result (λ turn. turn ≡ turn_of size (S.device sectors.old).now.bytes) }
    ensures reads_only { OnlyReads S.device S.of_size size sectors.old sectors.new }
{
    match get_sector(sectors, size, 1, bytes) {
        Ok(()) => Ok(bytes[0] == 1),
        Err(SectorError::Unreadable) => Ok(false),
        Err(SectorError::Fault) => Err(Halt::Fault),
    }
}

/// What an area holds.
fn read_area<S: Sectors>(
    alloc: Global,
    sectors: &mut S,
    size: SectorSize,
    first: u64,
    count: usize,
) -> Result<Vec<u8>, Halt>
    requires size { S.of_size sectors.old ≡ size }
    requires fits { place_of size (first + count) ≤ length (S.device sectors.old).now.bytes }
    ensures area { IfOk result (λ image. IsRead size first count image.items (S.device sectors.old)) }
    ensures reads_only { OnlyReads S.device S.of_size size sectors.old sectors.new }
{
    let _sectors = sectors.count();
    let mut image = zeros(alloc, size, count)?;
    let mut room = [0u8; 4096];
    let done = match size {
        SectorSize::Bytes512 => read_sectors(
            sectors,
            size,
            first,
            count,
            &mut image,
            &mut room[..512],
        ),
        SectorSize::Bytes4096 => read_sectors(sectors, size, first, count, &mut image, &mut room),
    };
    match done {
        Ok(()) => Ok(image),
        Err(error) => Err(error),
    }
}

// Reads its sectors, by way of a room for one.
fn read_sectors<S: Sectors>(
    sectors: &mut S,
    size: SectorSize,
    first: u64,
    count: usize,
    image: &mut [u8],
    room: &mut [u8],
) -> Result<(), Halt>
    requires size { S.of_size sectors.old ≡ size }
    requires whole { length room.old ≡ bytes_in size }
    requires long { length image.old ≡ place_of size count }
    requires fits { place_of size (first + count) ≤ length (S.device sectors.old).now.bytes }
    ensures area { OnOk result (IsRead size first count image.new (S.device sectors.old)) }
    ensures reads_only { OnlyReads S.device S.of_size size sectors.old sectors.new }
{
    for i in 0..count {
        read_one(sectors, size, first, i, image, room)?;
    }
    Ok(())
}

// Reads one of them.
fn read_one<S: Sectors>(
    sectors: &mut S,
    size: SectorSize,
    first: u64,
    i: usize,
    image: &mut [u8],
    room: &mut [u8],
) -> Result<(), Halt>
    requires size { S.of_size sectors.old ≡ size }
    requires whole { length room.old ≡ bytes_in size }
    requires within { place_of size i + bytes_in size ≤ length image.old }
    requires fits { HasSector size (first + i) (S.device sectors.old) }
    ensures ok { OnOk result (TakesSector size first i image.old image.new (S.device sectors.old)) }
    ensures reads_only { OnlyReads S.device S.of_size size sectors.old sectors.new }
{
    let _sectors = sectors.count();
    let number = first + i as u64;
    let at = i * size.bytes();
    match get_sector(sectors, size, number, room) {
        Ok(()) => {
            overwrite(image, at as u64, room);
            Ok(())
        }
        Err(_) => Err(Halt::Fault),
    }
}
