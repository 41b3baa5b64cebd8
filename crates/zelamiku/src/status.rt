//! Answers as C's numbers, which `zelamiku.h` names.
ghost use Rattle.std.specs.Prelude.{◌≡◌};
ghost use Rattle.zelamiku.specs.HeapStatuses.{acknowledged_status, close_status, host_status, image_status, recover_status, round_status, schema_status, store_status};
ghost use Rattle.zelamiku.specs.JournalStatuses.{call_status, journal_status, turn_status};
ghost use Rattle.zelamiku.specs.SessionStatuses.{refusal_status, status_of, still_status};

use block_disk::{DiskError, Fault};
use disk_journal::JournalError;
use guards::SchemaError;
use heap_model::{Lane, StoreError};
use host_heap::{AcknowledgedError, CloseRefusal, HostError, RoundError};
use image::ImageError;
use recover::RecoverError;
use session::{SessionError, Still};
use trim_helper::CloseError;

/// The call was made.
pub const OK: u32 = 0;

/// Nothing is behind the handle, or what is left of a session that has ended.
pub const NOTHING: u32 = 1;

/// The handle that is to be opened has something behind it.
pub const OPEN: u32 = 2;

/// What is behind the handle is of another kind than the call wants.
pub const WRONG_KIND: u32 = 3;

/// There was no memory.
pub const NO_MEMORY: u32 = 4;

/// The session waits for a monitor, so that it can do nothing but resume.
pub const WAITING: u32 = 5;

/// No session, or no call of the device, is left.
pub const NONE_LEFT: u32 = 6;

/// The host has yet to make calls of the device.
pub const CALLS_LEFT: u32 = 7;

/// The heap has no such lane.
pub const BAD_LANE: u32 = 8;

/// A session of the heap hasn't ended, or another thread isn't done with ending one.
pub const RUNNING: u32 = 9;

/// There is no such object.
pub const UNKNOWN_OBJECT: u32 = 10;

/// There is no such field.
pub const UNKNOWN_FIELD: u32 = 11;

/// The session doesn't hold the monitor, or that of the field's guard.
pub const NOT_HELD: u32 = 12;

/// The lane has no room for a whole section's records until rounds have trimmed it.
pub const BEHIND: u32 = 13;

/// The section would have more records than a section may have.
pub const SECTION_FULL: u32 = 14;

/// More monitors would be held, or more objects, fields or slots declared, than may be.
pub const TOO_MANY: u32 = 15;

/// The monitor is held by as many locks as it may be.
pub const TOO_DEEP: u32 = 16;

/// The monitor needs a fat word, and none is free.
pub const NO_FAT: u32 = 17;

/// A number is at its end: the monitor's, the lane's or the control's.
pub const WORN: u32 = 18;

/// Another session has the monitor, or had it when this one tried.
pub const HELD: u32 = 19;

/// Nobody has notified the session that waits.
pub const IN_SET: u32 = 20;

/// A call of the disk in memory failed, which is want of memory: no heap was made, or the heap has stopped.
pub const FAULT: u32 = 21;

/// An earlier call answered `FAULT`, with which the heap stopped.
pub const FAILED: u32 = 22;

/// A session was ended while it held a monitor.
pub const UNFINISHED: u32 = 23;

/// There is no object or no field, or a pool would have no slot.
pub const EMPTY: u32 = 24;

/// The bytes are no image of a heap.
pub const NOT_FORMATTED: u32 = 25;

/// A number of the image, or of the heap to be made, is out of its limits.
pub const BAD_HEADER: u32 = 26;

/// The bytes are fewer than the image has.
pub const TOO_SMALL: u32 = 27;

/// The image has no control.
pub const NO_CONTROL: u32 = 28;

/// The image's control can't be read.
pub const BAD_CONTROL: u32 = 29;

/// The image has a record that can't be read.
pub const BAD_RECORD: u32 = 30;

/// No threads can have left the image's log.
pub const ILLEGAL_LOG: u32 = 31;

// 32 to 34 are of the hosts' headers.
/// The heap has stopped since its host couldn't make a sync.
pub const STOPPED: u32 = 35;

/// No slot of the pool is free.
pub const POOL_EMPTY: u32 = 36;

/// The slot isn't taken, or the pool has no such slot.
pub const NOT_TAKEN: u32 = 37;

/// A field of the pool names no slot.
pub const DAMAGED: u32 = 38;

/// The heap was closed.
pub const CLOSED: u32 = 39;

/// The image has version 1, which only an upgrade opens.
pub const OLD_VERSION: u32 = 40;

// 41 to 43 are the host's own (bindings/statuses.csv).
/// A lane's ring can't have room for as many records as C asks for.
pub const RING: u32 = 44;

// 45 to 47 are the host's own too.
/// The stamps of the journal's batches have come to the end of their numbers.
pub const WORN_JOURNAL: u32 = 48;

/// The status of a session's refusal.
pub fn of_session(refusal: SessionError) -> u32
    // Each refusal of a session has one number, by a table.
    ensures { result ≡ refusal_status refusal }
{
    match refusal {
        SessionError::UnknownObject => UNKNOWN_OBJECT,
        SessionError::UnknownField => UNKNOWN_FIELD,
        SessionError::NotHeld => NOT_HELD,
        SessionError::Behind => BEHIND,
        SessionError::SectionFull => SECTION_FULL,
        SessionError::TooMany => TOO_MANY,
        SessionError::TooDeep => TOO_DEEP,
        SessionError::NoFat => NO_FAT,
        SessionError::Worn => WORN,
        SessionError::Held(_) => HELD,
    }
}

/// The status of a session's answer that tells nothing else.
pub fn of_answer(answer: Result<(), SessionError>) -> u32
    ensures { result ≡ status_of answer }
{
    match answer {
        Ok(()) => OK,
        Err(refusal) => of_session(refusal),
    }
}

/// The status of a session that waits on.
pub fn of_still(still: Still) -> u32
    // Each refusal of a session has one number, by a table.
    ensures { result ≡ still_status still }
{
    match still {
        Still::InSet => IN_SET,
        Still::Held(_) => HELD,
    }
}

/// The status of a round's refusal.
pub fn of_round(refusal: RoundError) -> u32
    // Each reason of a heap has one number, by a table.
    ensures { result ≡ round_status refusal }
{
    match refusal {
        RoundError::CallsLeft => CALLS_LEFT,
        RoundError::Store(refusal) => of_store(refusal),
    }
}

fn of_store(refusal: StoreError) -> u32
    ensures { result ≡ store_status refusal }
{
    match refusal {
        StoreError::Failed => FAILED,
        StoreError::Worn => WORN,
        StoreError::Fault => FAULT,
        StoreError::Unfinished => UNFINISHED,
        _ => FAILED,
    }
}

/// The status of a heap that isn't made or opened.
pub fn of_host(refusal: HostError) -> u32
    // Each reason of a heap has one number, by a table.
    ensures { result ≡ host_status refusal }
{
    match refusal {
        HostError::NoMemory => NO_MEMORY,
        HostError::Schema(refusal) => of_schema(refusal),
        HostError::Image(refusal) => of_image(refusal),
        HostError::Recover(refusal) => of_recover(refusal),
    }
}

fn of_schema(refusal: SchemaError) -> u32
    ensures { result ≡ schema_status refusal }
{
    match refusal {
        SchemaError::NoMemory => NO_MEMORY,
        SchemaError::UnknownObject => UNKNOWN_OBJECT,
        SchemaError::TooMany => TOO_MANY,
        SchemaError::Empty | SchemaError::DoubleName => EMPTY,
    }
}

fn of_image(refusal: ImageError) -> u32
    ensures { result ≡ image_status refusal }
{
    match refusal {
        ImageError::NoMemory => NO_MEMORY,
        ImageError::Fault => FAULT,
        ImageError::BadHeader => BAD_HEADER,
        ImageError::Worn => WORN,
        ImageError::TooSmall => TOO_SMALL,
    }
}

fn of_recover(refusal: RecoverError) -> u32
    ensures { result ≡ recover_status refusal }
{
    match refusal {
        RecoverError::NoMemory => NO_MEMORY,
        RecoverError::Fault => FAULT,
        RecoverError::NotFormatted => NOT_FORMATTED,
        RecoverError::BadHeader => BAD_HEADER,
        RecoverError::TooSmall => TOO_SMALL,
        RecoverError::NoControl => NO_CONTROL,
        RecoverError::BadControl => BAD_CONTROL,
        RecoverError::OldVersion => OLD_VERSION,
        RecoverError::Worn => WORN,
        RecoverError::BadRecord { .. } => BAD_RECORD,
        RecoverError::IllegalLog { .. } => ILLEGAL_LOG,
    }
}

/// The status of a lane of which nothing is told.
pub fn of_acknowledged(refusal: AcknowledgedError) -> u32
    // Each reason of a heap has one number, by a table.
    ensures { result ≡ acknowledged_status refusal }
{
    match refusal {
        AcknowledgedError::BadLane => BAD_LANE,
        AcknowledgedError::CallsLeft => CALLS_LEFT,
    }
}

/// The status of a heap that has stopped in place of being closed.
pub fn of_close(refusal: CloseRefusal) -> u32
    // Each reason of a heap has one number, by a table.
    ensures { result ≡ close_status refusal }
{
    match refusal {
        CloseRefusal::NoMemory => NO_MEMORY,
        CloseRefusal::Close(CloseError::Missing { .. }) => BAD_LANE,
        CloseRefusal::Close(CloseError::Unfinished { .. }) => UNFINISHED,
        CloseRefusal::Close(CloseError::Failed) => FAILED,
        CloseRefusal::Close(CloseError::Worn) => WORN,
        CloseRefusal::Close(CloseError::Fault) => FAULT,
    }
}

/// The status of a journal that isn't made or opened.
pub fn of_journal(refusal: JournalError) -> u32
    // Each reason of a journal has one number, by a table.
    ensures { result ≡ journal_status refusal }
{
    match refusal {
        JournalError::NoJournal => NOT_FORMATTED,
        JournalError::TooSmall => TOO_SMALL,
        JournalError::Worn => WORN_JOURNAL,
        JournalError::Fault => FAULT,
        JournalError::NoMemory => NO_MEMORY,
    }
}

/// The status of a journal's read or write.
pub fn of_call(answer: Result<(), DiskError>) -> u32
    // Each reason of a journal has one number, by a table.
    ensures { result ≡ call_status answer }
{
    match answer {
        Ok(()) => OK,
        Err(DiskError::OutOfRange) => TOO_SMALL,
        Err(DiskError::Fault) => FAULT,
    }
}

/// The status of a journal's order or sync.
pub fn of_turn(answer: Result<(), Fault>) -> u32
    // Each reason of a journal has one number, by a table.
    ensures { result ≡ turn_status answer }
{
    match answer {
        Ok(()) => OK,
        Err(Fault) => FAULT,
    }
}
