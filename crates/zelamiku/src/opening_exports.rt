//! What C calls to make or open a heap, with rings of the room that it asks for.
ghost use Rattle.std.specs.Prelude.{◌≡◌, MatchOption};
ghost use Rattle.thread_rings.specs.Rings.{IsRingSize};
ghost use Rattle.recover.specs.declared.versions.Versions.TheVariants.{Current, Both};
ghost use Rattle.zelamiku.specs.HandleDoors.{Makes, MakesNew, Opens, OpensNew};

use crate::slot::{Slot, is_taken, put_new};
use crate::state::Open;
use crate::words::{Dropped, Field, Told};
use crate::{heap_calls, report_calls, status};
use recover::Versions;
use std::alloc::Global;
use thread_rings::RingRecords;

/// Makes a heap and opens it.
#[unsafe(no_mangle)]
pub extern "C" fn zelamiku_format(
    alloc: Global,
    place: &mut Slot,
    objects: u32,
    fields: &[Field],
    lanes: u32,
    capacity: u32,
    threads: u32,
    ring: u32,
    size: &mut u64,
) -> u32
    // A heap is made of exactly the objects and fields that C declares, each with its owner, its guard and its first
    // value, and the image's size is told. Where there are more lanes than C has threads, and at least two, the last one
    // is the helper's. Each lane's ring has just the room that C asks for. More than 255 lanes are refused before all else
    // but `RING` and `OPEN`. A handle that is in use is answered `OPEN` and keeps what it has. Where no heap is made the
    // size is 0.
    ensures { Makes objects fields.now lanes capacity threads ring size.new place.old place.new result }
{
    *size = 0;
    match ring_of(ring) {
        Some(room) => format_at(
            alloc, place, objects, fields, lanes, capacity, threads, room, size,
        ),
        None => status::RING,
    }
}

// With rings of this room.
fn format_at(
    alloc: Global,
    place: &mut Slot,
    objects: u32,
    fields: &[Field],
    lanes: u32,
    capacity: u32,
    threads: u32,
    ring: RingRecords,
    size: &mut u64,
) -> u32
    ensures { MakesNew objects fields.now lanes capacity threads ring size.new place.old place.new result }
{
    *size = 0;
    if is_taken(alloc, place) {
        return status::OPEN;
    }
    match heap_calls::format(alloc, objects, fields, lanes, capacity, threads, ring) {
        Ok(heap) => {
            let bytes = heap.size();
            let Ok(()) = put_new(alloc, place, Open::Heap(heap)) else {
                return status::NO_MEMORY;
            };
            *size = bytes;
            status::OK
        }
        Err(answer) => answer,
    }
}

/// Recovers a heap and opens it. It tells which sections it kept and dropped, or for which record it refused.
#[unsafe(no_mangle)]
pub extern "C" fn zelamiku_open(
    alloc: Global,
    place: &mut Slot,
    image: &[u8],
    threads: u32,
    ring: u32,
    told: &mut Told,
    dropped: &mut [Dropped],
) -> u32
    // A heap is opened with what recovery finds in the bytes, and each lane's ring has just the room that C asks for.
    // Where the image has more lanes than C has threads, and at least two, the last one is the helper's. C is told the
    // heap's layout and how many lanes threads have. It is told how many sections of each lane were kept, and how many
    // fields took an old value back. It is told each dropped section with its number and why, as far as there is room.
    // A refusal for a record names its lane and place. A handle that is in use is answered `OPEN` and keeps what it has.
    // Where no heap is opened nothing else is told.
    ensures { Opens Current image.now threads ring told.new dropped.new place.old place.new result }
{
    open_ringed(
        alloc,
        place,
        Versions::Current,
        image,
        threads,
        ring,
        told,
        dropped,
    )
}

/// Upgrades a heap and opens it, and tells the same.
#[unsafe(no_mangle)]
pub extern "C" fn zelamiku_upgrade(
    alloc: Global,
    place: &mut Slot,
    image: &[u8],
    threads: u32,
    ring: u32,
    told: &mut Told,
    dropped: &mut [Dropped],
) -> u32
    // An upgrade opens a heap as an opening does, from an image of either version.
    ensures { Opens Both image.now threads ring told.new dropped.new place.old place.new result }
{
    open_ringed(
        alloc,
        place,
        Versions::Both,
        image,
        threads,
        ring,
        told,
        dropped,
    )
}

// Recovers a heap of one of these versions and opens it, with rings of so many records, if they can have them.
fn open_ringed(
    alloc: Global,
    place: &mut Slot,
    versions: Versions,
    image: &[u8],
    threads: u32,
    ring: u32,
    told: &mut Told,
    dropped: &mut [Dropped],
) -> u32
    ensures { Opens versions image.now threads ring told.new dropped.new place.old place.new result }
{
    match ring_of(ring) {
        Some(room) => open_at(alloc, place, versions, image, threads, room, told, dropped),
        None => {
            *told = report_calls::nothing();
            report_calls::tell_dropped(&[], dropped);
            status::RING
        }
    }
}

// With rings of this room.
fn open_at(
    alloc: Global,
    place: &mut Slot,
    versions: Versions,
    image: &[u8],
    threads: u32,
    ring: RingRecords,
    told: &mut Told,
    dropped: &mut [Dropped],
) -> u32
    ensures { OpensNew versions image.now threads ring told.new dropped.new place.old place.new result }
{
    *told = report_calls::nothing();
    report_calls::tell_dropped(&[], dropped);
    if is_taken(alloc, place) {
        return status::OPEN;
    }
    match heap_calls::open(alloc, image, versions, threads, ring) {
        Ok((heap, report)) => {
            let found = report_calls::of_heap(&heap, &report);
            let Ok(()) = put_new(alloc, place, Open::Heap(heap)) else {
                return status::NO_MEMORY;
            };
            *told = found;
            report_calls::tell_dropped(&report.dropped, dropped);
            status::OK
        }
        Err(refusal) => {
            *told = report_calls::of_refusal(refusal);
            status::of_host(refusal)
        }
    }
}

// The room of a lane's ring that C asks for. `None` where a ring can't have it.
fn ring_of(ring: u32) -> Option<RingRecords>
    ensures { MatchOption result (¬ IsRingSize ring) (λ r. (r ≡ ring) × IsRingSize ring) }
{
    match RingRecords::of(ring as usize) {
        Some(room) => {
            // It says that a ring can have this room.
            let _ = room.get();
            Some(room)
        }
        None => None,
    }
}
