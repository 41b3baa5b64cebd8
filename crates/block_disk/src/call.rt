//! The record that a disk in memory keeps of its writes and syncs.
ghost use Rattle.std.specs.Prelude.{◌≡◌, ◌↔◌, IsTrue, ◌<◌, ◌≤◌, [], ◌∷◌, length, vec_len, vec_capacity};
ghost use Rattle.block_disk.specs.Bytes.{spliced};
ghost use Rattle.block_disk.specs.Calls.{AllFit, StillFit, kept_or_not, stop_of, stops_of};
ghost use Rattle.block_disk.specs.Memory.{Fits, Synced, WriteFailed, Wrote, bytes_after};

use crate::place::overwrite;
use crate::short::ShortBytes;
use std::alloc::Global;

/// A write or a sync that was asked for. One that failed stored or fixed nothing.
///
/// A short write, as that of a log's record, is kept in place: a block of memory for each of them would cost more than
/// the write.
#[derive(Drop)]
pub enum Call {
    Write { at: u64, bytes: Vec<u8> },
    ShortWrite { at: u64, bytes: ShortBytes },
    FailedWrite { at: u64, len: u64 },
    Sync,
    FailedSync,
}

/// Whether the call is a sync that succeeded.
pub fn is_sync(call: &Call) -> bool
    ensures { IsTrue result ↔ (stop_of call.now ≡ Synced) }
{
    match call {
        Call::Sync => true,
        Call::Write { .. } | Call::ShortWrite { .. } => false,
        Call::FailedWrite { .. } | Call::FailedSync => false,
    }
}

/// Keeps the call, if there is memory for it and for one more.
pub fn keep(calls: &mut Vec<Call>, call: Call) -> bool
    ensures spare { IsTrue result → vec_len calls.new < vec_capacity calls.new }
    ensures len { ¬ IsTrue result → vec_len calls.new ≡ vec_len calls.old }
    ensures capacity { vec_capacity calls.old ≤ vec_capacity calls.new }
    ensures kept { stops_of calls.new.items ≡ kept_or_not result (stop_of call) calls.old.items }
    ensures fits { StillFit (stop_of call) calls.old.items calls.new.items }
{
    match calls.reserve(2) {
        Ok(()) => {
            calls.push_reserved(call);
            true
        }
        Err(_) => false,
    }
}

/// Keeps a call that was chosen to fail, in the room that is spare.
pub fn keep_failed(calls: &mut Vec<Call>, call: Call) -> bool
    ensures room { vec_len calls.old < vec_capacity calls.old → IsTrue result }
    ensures kept { stops_of calls.new.items ≡ kept_or_not result (stop_of call) calls.old.items }
    ensures fits { StillFit (stop_of call) calls.old.items calls.new.items }
{
    match calls.push(call) {
        Ok(()) => true,
        Err(_) => false,
    }
}

/// Keeps a write of these bytes, if there is memory for it and for one call more.
pub fn keep_write(alloc: Global, calls: &mut Vec<Call>, at: u64, bytes: &[u8]) -> bool
    ensures spare { IsTrue result → vec_len calls.new < vec_capacity calls.new }
    ensures len { ¬ IsTrue result → vec_len calls.new ≡ vec_len calls.old }
    ensures capacity { vec_capacity calls.old ≤ vec_capacity calls.new }
    ensures kept { stops_of calls.new.items
        ≡ kept_or_not result (Wrote at bytes.now) calls.old.items }
    ensures fits { StillFit (Wrote at bytes.now) calls.old.items calls.new.items }
{
    match ShortBytes::of(bytes) {
        Some(bytes) => keep(calls, Call::ShortWrite { at, bytes }),
        None => keep_long_write(alloc, calls, at, bytes),
    }
}

// Keeps a write whose bytes take memory of their own.
fn keep_long_write(alloc: Global, calls: &mut Vec<Call>, at: u64, bytes: &[u8]) -> bool
    ensures spare { IsTrue result → vec_len calls.new < vec_capacity calls.new }
    ensures len { ¬ IsTrue result → vec_len calls.new ≡ vec_len calls.old }
    ensures capacity { vec_capacity calls.old ≤ vec_capacity calls.new }
    ensures kept { stops_of calls.new.items
        ≡ kept_or_not result (Wrote at bytes.now) calls.old.items }
    ensures fits { StillFit (Wrote at bytes.now) calls.old.items calls.new.items }
{
    match bytes.to_vec(alloc) {
        Ok(bytes) => keep(calls, Call::Write { at, bytes }),
        Err(_) => false,
    }
}

// Stores what the call wrote.
fn store_one(call: &Call, image: &mut [u8])
    requires { Fits (length image.old) (stop_of call.now) }
    ensures { image.new ≡ bytes_after image.old (stop_of call.now ∷ []) }
{
    match call {
        Call::Write { at, bytes } => overwrite(image, *at, bytes),
        Call::ShortWrite { at, bytes } => overwrite(image, *at, bytes.as_slice()),
        Call::FailedWrite { .. } | Call::Sync | Call::FailedSync => (),
    }
}

/// Stores what these calls wrote, the oldest first.
pub fn store(calls: &[Call], image: &mut [u8])
    requires fits { AllFit (length image.old) calls.now }
    ensures { image.new ≡ bytes_after image.old (stops_of calls.now) }
{
    for call in calls {
        store_one(call, image);
    }
}
