//! Commits that turn one gate each, at each of their stops.
ghost use Rattle.image_parts.specs.Layout.{IsLayout};

use crate::commits::shown;
use crate::images::{put, steady};
use block_disk::{Disk, Fill, MemDisk};
use image::{Layout, Slot, choose_control, commit_by_turning, steady_law};
use std::alloc::Global;

// Where a commit of the rows that count is made by one gate, over what is durable, and with which sequence.
fn turned(disk: &mut MemDisk, layout: &Layout) -> Option<(Slot, u64)>
    requires { IsLayout layout.now }
{
    let Ok(()) = disk.sync() else {
        return None;
    };
    if disk.size() < 2160 {
        return None;
    }
    let Ok((chosen, control)) = choose_control(disk, layout) else {
        return None;
    };
    steady_law();
    let Ok(made) = commit_by_turning(disk, layout, chosen, control.sequence, &control.rows) else {
        return None;
    };
    Some(made)
}

// The same, and how many writes and syncs it took, with the sync before.
fn counted(disk: &mut MemDisk, layout: &Layout) -> Option<(Slot, u64, u64)>
    requires { IsLayout layout.now }
{
    let before = disk.stops();
    let (slot, sequence) = turned(disk, layout)?;
    Some((slot, sequence, disk.stops().saturating_sub(before)))
}

// Three commits over a fresh image whose slot B has this gate.
fn three_turns(alloc: Global, gate: u8) -> Option<[(Slot, u64, u64); 3]> {
    match steady(alloc) {
        Some((mut disk, layout)) => {
            let turns = turn_from(&mut disk, &layout, gate);
            drop(disk);
            turns
        }
        None => None,
    }
}

fn turn_from(disk: &mut MemDisk, layout: &Layout, gate: u8) -> Option<[(Slot, u64, u64); 3]>
    requires { IsLayout layout.now }
{
    put(disk, 1112, &[gate])?;
    count_three(disk, layout)
}

fn count_three(disk: &mut MemDisk, layout: &Layout) -> Option<[(Slot, u64, u64); 3]>
    requires { IsLayout layout.now }
{
    let first = counted(disk, layout)?;
    let second = counted(disk, layout)?;
    Some([first, second, counted(disk, layout)?])
}

// Whether they turn the gates in turn, the first of them by so many writes and syncs.
fn turn_so(alloc: Global, gate: u8, first: u64) -> bool {
    let turns = [(Slot::B, 2, first), (Slot::A, 1, 5), (Slot::B, 2, 5)];
    three_turns(alloc, gate) == Some(turns)
}

// Two writes and two syncs each: a body and a gate, which opens, closes and opens. Slot B of a fresh image has zeros behind a
// closed gate; open it would have sequence 0, so its gate is closed first, and a third sync stands behind that.
#[test]
fn a_turn_takes_two_writes_and_two_syncs(rt: HostRuntime) {
    assert!(rt; turn_so(rt.alloc(), 0, 5) && turn_so(rt.alloc(), 90, 5));
    assert!(rt; turn_so(rt.alloc(), 165, 7));
}

// From which stop on a crash shows what a gate that is written at stop `gate` makes count: as soon as it may read so, or once
// it is durable.
fn since(fill: Fill, gate: u64, opens: bool) -> u64 {
    let at_once = match fill {
        Fill::Lost => false,
        Fill::Kept => true,
        Fill::Byte(byte) => (byte == 165) == opens,
    };
    if at_once {
        gate
    } else {
        gate.saturating_add(2)
    }
}

// Whether a crash at each stop of three commits over a fresh image shows the control before it up to its gate, and then its
// own. The image takes 13 stops, and each commit has a sync before it.
fn are_shown(alloc: Global, disk: &MemDisk, fill: Fill) -> bool {
    let gates = [
        since(fill, 17, true),
        since(fill, 22, false),
        since(fill, 27, true),
    ];
    for stop in 14..30 {
        if shown(alloc, disk, stop, fill) != Some(Ok(expected(gates, stop))) {
            return false;
        }
    }
    true
}

// What counts at this stop, where each of these gates turns from its own on.
fn expected(gates: [u64; 3], stop: u64) -> (Slot, u64) {
    let [first, second, third] = gates;
    if stop < first || (second <= stop && stop < third) {
        (Slot::A, 1)
    } else {
        (Slot::B, 2)
    }
}

// Which fills leave what is wanted at each stop.
fn crashed_turns(alloc: Global) -> Option<[bool; 5]> {
    match steady(alloc) {
        Some((mut disk, layout)) => {
            let crashed = crash_turns(alloc, &mut disk, &layout);
            drop(disk);
            crashed
        }
        None => None,
    }
}

fn crash_turns(alloc: Global, disk: &mut MemDisk, layout: &Layout) -> Option<[bool; 5]>
    requires { IsLayout layout.now }
{
    count_three(disk, layout)?;
    Some([
        are_shown(alloc, disk, Fill::Lost),
        are_shown(alloc, disk, Fill::Kept),
        are_shown(alloc, disk, Fill::Byte(0)),
        are_shown(alloc, disk, Fill::Byte(0xff)),
        are_shown(alloc, disk, Fill::Byte(0xa5)),
    ])
}

#[test]
fn a_crash_in_a_turn_leaves_the_old_control_or_the_new_one(rt: HostRuntime) {
    assert!(rt; crashed_turns(rt.alloc()) == Some([true; 5]));
}
