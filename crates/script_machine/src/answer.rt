//! What the machine answers to a command.
use crate::image_study::ImageStudy;
use heap_model::Lane;

/// What a line prints.
#[derive(Drop)]
pub enum Answer {
    /// Nothing: an object or a field was declared.
    Silent,
    /// The step was taken.
    Done,
    /// The image is formatted, and has this size in bytes.
    Formatted(u64),
    /// The thread waits.
    Waiting,
    /// These threads were woken, in order.
    Woke(Vec<Lane>),
    /// The value that was loaded.
    Value(u64),
    /// How many records were written to the log.
    Logged(u64),
    /// How many cells were written home.
    Wrote(u64),
    /// How many sections of each lane are acknowledged since the last format or recovery.
    Acknowledged(Vec<u64>),
    /// The applied value of each field.
    Heap(Vec<u64>),
    /// The device has crashed.
    Crashed,
    /// What the image on the device holds.
    Shown(ImageStudy),
    /// The device is recovered.
    Recovered(Report),
    /// The line was refused, and has changed nothing.
    Refused(Refusal),
}

/// What recovery made of the device.
#[derive(Drop)]
pub struct Report {
    /// What it has kept and dropped.
    pub found: recover::Report,
    /// How many lanes the image has.
    pub lanes: u8,
    /// The value of each field.
    pub heap: Vec<u64>,
}

/// Why a line is refused (docs/SCRIPTS.md, "Refusals").
#[derive(Clone, Copy, Debug, PartialEq, Eq)]
pub enum Refusal {
    /// The line doesn't belong to the machine's state.
    State,
    /// There is no such lane.
    Lane,
    /// A name isn't declared.
    Unknown,
    /// The thread waits.
    Waiting,
    /// The thread doesn't wait.
    NotWaiting,
    /// The thread is in a wait set still.
    InSet,
    /// Another thread owns the monitor.
    Held,
    /// The thread doesn't own the monitor.
    NotHeld,
    /// A number is at its last value.
    Worn,
    /// The section would have too many records.
    TooLong,
    /// The lane's log has no room.
    LogFull,
    /// Home cells are still to be written.
    Unwritten,
    /// There is no object or no field.
    Empty,
    /// A number of the layout or of the image's header is out of its limits.
    BadHeader,
    /// There were fewer writes and syncs.
    Back,
    /// The name is taken.
    DoubleName,
    /// There are as many already as there may be.
    TooMany,
    /// The device has no image.
    NotFormatted,
    /// The device is smaller than its image.
    TooSmall,
    /// The image has no control that counts.
    NoControl,
    /// The control that counts is none of this image.
    BadControl,
    /// The image is of version 1, from before there were transient fields.
    OldVersion,
    /// The record at this place of the lane's log is none.
    BadRecord { lane: Lane, place: u64 },
    /// The log isn't that of a legal history: the record at this place.
    IllegalLog { lane: Lane, place: u64 },
}
