//! The first bytes of a damaged image: its header and both slots of its control, each read by itself.
ghost use Rattle.std.specs.Prelude.{◌≡◌, IfOk};
ghost use Rattle.image_parts.specs.Slots.{Chooses};
ghost use Rattle.heapctl_commands.specs.Heads.{HoldsAlone, alone_of};

use block_disk::{Disk, put};
use disk_file::VolatileDisk;
use image::{
    Control, ControlError, HEAD_BYTES, LaneRow, Layout, Slot, choose_control, read_header,
};
use std::alloc::{AllocError, Global};

/// What an image begins with, where its header can be read.
#[derive(Clone, Copy)]
pub(crate) struct Head {
    pub(crate) layout: Layout,
    bytes: [u8; HEAD_BYTES],
}

/// That of the image on this disk.
pub(crate) fn read_head<D: Disk>(disk: &mut D) -> Option<Head> {
    let layout = match read_header(disk) {
        Ok(layout) => layout,
        Err(_) => return None,
    };
    let mut bytes = [0; HEAD_BYTES];
    match disk.read_at(0, &mut bytes) {
        Ok(()) => Some(Head { layout, bytes }),
        Err(_) => None,
    }
}

/// Tells what each slot of the control holds, and why it doesn't count if it doesn't; and the lanes of the one that counts, or, where
/// none does, of each that can be read.
pub(crate) fn tell_slots<R: Eprint + AllocGlobal>(rt: &R, image: &str, head: &Head) {
    let counting = counting_slot(rt.alloc(), head);
    tell_slot(rt, image, head, Slot::A, counting);
    tell_slot(rt, image, head, Slot::B, counting);
}

fn tell_slot<R: Eprint + AllocGlobal>(
    rt: &R,
    image: &str,
    head: &Head,
    slot: Slot,
    counting: Option<Slot>,
) {
    let name = name_of(slot);
    match control_in(rt.alloc(), &head.layout, &head.bytes, slot) {
        Ok(control) => {
            let why = standing(rt.alloc(), head, slot, control.sequence, counting);
            let (sequence, version) = (control.sequence, control.version);
            let _ = eprintln!(rt;
                "heapctl: {image}: control slot {name}: sequence {sequence}, version {version}; {why}"
            );
            if counting.is_none() || counting == Some(slot) {
                tell_lanes(rt, image, name, head.layout.lanes, &control.rows);
            }
        }
        Err(ControlError::NoControl) => {
            let _ = eprintln!(rt; "heapctl: {image}: control slot {name}: its gate is closed");
        }
        Err(ControlError::BadControl) => {
            let _ = eprintln!(rt;
                "heapctl: {image}: control slot {name}: its gate is open, and it holds no control of this layout"
            );
        }
        Err(ControlError::Fault) => {}
    }
}

fn tell_lanes<R: Eprint>(rt: &R, image: &str, name: &str, lanes: u8, rows: &[LaneRow]) {
    for lane in 0..lanes {
        if let Some(row) = rows.get(usize::from(lane)) {
            tell_lane(rt, image, name, u32::from(lane) + 1, *row);
        }
    }
}

// As the line of `show` tells it.
fn tell_lane<R: Eprint>(rt: &R, image: &str, name: &str, thread: u32, row: LaneRow) {
    let (start, settled) = (row.start, row.settled);
    let (logged, kept) = (row.logged, row.kept);
    let _ = eprintln!(rt;
        "heapctl: {image}: control slot {name}: lane t{thread} start {start} settled {settled} logged {logged} kept {kept}"
    );
}

// Whether a slot with a control of this sequence counts, and why it doesn't.
fn standing(
    alloc: Global,
    head: &Head,
    slot: Slot,
    sequence: u64,
    counting: Option<Slot>,
) -> &'static str {
    if counting == Some(slot) {
        return "it counts";
    }
    if counting.is_some() {
        return "it doesn't count: the other slot has a greater sequence";
    }
    match control_in(alloc, &head.layout, &head.bytes, slot.other()) {
        Ok(other) if other.sequence == sequence => {
            "it doesn't count: the other slot has the same sequence"
        }
        _ => "it doesn't count: the other slot's gate is open, and its sequence isn't smaller",
    }
}

// The slot that counts, if one does.
fn counting_slot(alloc: Global, head: &Head) -> Option<Slot> {
    let Ok(bytes) = copy_of(alloc, &head.bytes) else {
        return None;
    };
    match chosen_in(&head.layout, bytes) {
        Ok((slot, _)) => Some(slot),
        Err(_) => None,
    }
}

// The control that this slot holds by itself, whatever the other one holds, by these first bytes of an image: the other one's gate is
// closed for it.
fn control_in(
    alloc: Global,
    layout: &Layout,
    head: &[u8],
    slot: Slot,
) -> Result<Control, ControlError>
    ensures { HoldsAlone layout.now head.now slot result }
{
    if head.len() < HEAD_BYTES {
        return Err(ControlError::Fault);
    }
    let Ok(mut bytes) = copy_of(alloc, head) else {
        return Err(ControlError::Fault);
    };
    put(&mut bytes, slot.other().start(), &[0]);
    alone(chosen_in(layout, bytes))
}

fn copy_of(alloc: Global, bytes: &[u8]) -> Result<Vec<u8>, AllocError>
    ensures { IfOk result (λ copy. copy.items ≡ bytes.now) }
{
    bytes.to_vec(alloc)
}

// Without the slot.
fn alone(chosen: Result<(Slot, Control), ControlError>) -> Result<Control, ControlError>
    ensures { result ≡ alone_of chosen }
{
    match chosen {
        Ok((_, control)) => Ok(control),
        Err(error) => Err(error),
    }
}

// The control that counts, by such first bytes of an image of this layout. `Fault`: there are too few of them.
fn chosen_in(layout: &Layout, bytes: Vec<u8>) -> Result<(Slot, Control), ControlError>
    ensures { Chooses layout.now bytes.items result }
{
    let mut disk = VolatileDisk::holding(bytes);
    if !layout.is_within_limits() || disk.size() < HEAD_BYTES as u64 {
        drop(disk);
        return Err(ControlError::Fault);
    }
    let chosen = choose_control(&mut disk, layout);
    drop(disk);
    chosen
}

fn name_of(slot: Slot) -> &'static str {
    match slot {
        Slot::A => "a",
        Slot::B => "b",
    }
}
