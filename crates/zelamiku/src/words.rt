//! What crosses to C besides handles and numbers.
use heap_model::LANES;

/// A field as C declares it: the object that has it, the object whose monitor guards it, the value with which it begins, and
/// whether it is transient, which 0 says that it isn't.
#[repr(C)]
#[derive(Clone, Copy)]
pub struct Field {
    pub owner: u32,
    pub guard: u32,
    pub first: u64,
    pub transient: u32,
}

/// What a heap has, and what recovery found.
#[repr(C)]
#[derive(Clone, Copy)]
pub struct Found {
    /// The bytes of its image.
    pub size: u64,
    pub objects: u32,
    pub fields: u32,
    pub lanes: u32,
    /// The records that a lane's area holds.
    pub capacity: u32,
    /// How many of its lanes threads have: all of them, or all but the last one, which is the helper's then.
    pub threads: u32,
    /// The sections that recovery dropped: none of them was acknowledged.
    pub dropped: u64,
    /// The fields that took an old value back.
    pub undone: u64,
}

/// What recovery found, lane by lane; or for which record it refused.
#[repr(C)]
#[derive(Clone, Copy)]
pub struct Told {
    pub found: Found,
    /// How many sections of each lane were kept.
    pub kept: [u64; LANES],
    /// The record for which the image is refused: its place in its lane.
    pub place: u64,
    /// Its lane, or 64 where no record is blamed.
    pub lane: u32,
}

/// A section that recovery dropped.
#[repr(C)]
#[derive(Clone, Copy)]
pub struct Dropped {
    /// Its number in its lane, from 1.
    pub section: u64,
    /// That of the section for which it was dropped, where it was for another.
    pub after_section: u64,
    pub lane: u32,
    /// 0 that there are no more; 1 it hasn't ended, 2 it depends on that other section, 3 it wasn't acknowledged.
    pub why: u32,
    /// The lane of that other section, or 64.
    pub after_lane: u32,
}

/// What the first bytes of a device say: which image they begin, if they are the header of one.
#[repr(C)]
#[derive(Clone, Copy)]
pub struct Head {
    /// The bytes of the image.
    pub size: u64,
    /// Where there is no image: from this byte on a device that is free has zeros.
    pub zeros_from: u64,
    pub objects: u32,
    pub fields: u32,
    pub lanes: u32,
    /// The records that a lane's area holds.
    pub capacity: u32,
    /// 1: they begin as an image does, and there may have been one. So the device isn't free, whatever comes after them.
    pub is_damaged: u32,
}

/// A call of the device.
#[repr(C)]
#[derive(Clone, Copy)]
pub struct Call {
    /// 0 none, 1 a write, 2 a sync.
    pub kind: u32,
    /// Where the bytes are written, from 0.
    pub at: u64,
    /// How many bytes are written.
    pub size: u64,
}

/// What a look found of a monitor.
#[repr(C)]
#[derive(Clone, Copy)]
pub struct Sight {
    /// The lane of its owner, or 64 where nobody has it.
    pub owner: u32,
    /// By how many locks it is held.
    pub locks: u32,
    /// How often it has become free.
    pub number: u64,
}
