//! What a crash leaves of a disk in memory.
ghost use Rattle.std.specs.Prelude.{◌≡◌, ℕ, ◌+◌, ◌≤◌, ◌<◌, List, [], ◌∷◌, length, take, replicate, IfOk};
ghost use Rattle.block_disk.specs.Bytes.{spliced};
ghost use Rattle.block_disk.specs.Calls.{AllFit, stop_of, stops_of};
ghost use Rattle.block_disk.specs.Crash.{crash_bytes, done_at, filled};
ghost use Rattle.block_disk.specs.Memory.{Fits, bytes_after, durable_after, pending_after};

use crate::call::{Call, is_sync, store};
use std::alloc::{AllocError, Global};

/// What a crash leaves in each range that was written since the last sync that succeeded.
#[derive(Clone, Copy, Debug, PartialEq, Eq)]
pub enum Fill {
    /// The bytes that it had at that sync.
    Lost,
    /// What was written; where a write failed, what the disk reads.
    Kept,
    /// This byte in every place.
    Byte(u8),
}

/// What a crash leaves of these first bytes that comes with so many of the calls ended and the next one, if any, begun.
pub(crate) fn image_at(
    alloc: Global,
    first: &[u8],
    calls: &[Call],
    ended: usize,
    fill: Fill,
) -> Result<Vec<u8>, AllocError>
    requires ended { ended ≤ length calls.now }
    requires fits { AllFit (length first.now) calls.now }
    ensures { IfOk result (λ image. image.items
        ≡ crash_bytes fill first.now (done_at (ended + 1) (stops_of calls.now))) }
{
    let mut image = first.to_vec(alloc)?;
    crash(&calls[..done_calls(calls, ended)], fill, &mut image);
    Ok(image)
}

// How many of the calls a crash finds done that comes with so many ended and the next one, if any, begun.
fn done_calls(calls: &[Call], ended: usize) -> usize
    requires { ended ≤ length calls.now }
    ensures within { result ≤ length calls.now }
    ensures done { stops_of (take result calls.now) ≡ done_at (ended + 1) (stops_of calls.now) }
{
    if ended == calls.len() {
        return ended;
    }
    if is_sync(&calls[ended]) {
        ended
    } else {
        ended + 1
    }
}

// Makes of a disk's first bytes what a crash leaves that finds these calls done.
fn crash(calls: &[Call], fill: Fill, image: &mut [u8])
    requires fits { AllFit (length image.old) calls.now }
    ensures { image.new ≡ crash_bytes fill image.old (stops_of calls.now) }
{
    match fill {
        Fill::Lost => store(&calls[..durable_calls(calls)], image),
        Fill::Kept => store(calls, image),
        Fill::Byte(byte) => {
            store(calls, image);
            fill_pending(calls, byte, image);
        }
    }
}

// How many calls there are up to the last sync that succeeded.
fn durable_calls(calls: &[Call]) -> usize
    ensures within { result ≤ length calls.now }
    ensures durable { (first : List ℕ)
        → bytes_after first (stops_of (take result calls.now))
        ≡ durable_after first (stops_of calls.now) }
{
    let mut rest = calls;
    while let Some((newest, older)) = rest.split_last() {
        if is_sync(newest) {
            break;
        }
        rest = older;
    }
    rest.len()
}

// Puts this byte at each place that was written since the last sync that succeeded.
fn fill_pending(calls: &[Call], byte: u8, image: &mut [u8])
    requires fits { AllFit (length image.old) calls.now }
    ensures { image.new ≡ filled byte (pending_after (stops_of calls.now)) image.old }
{
    let mut rest = calls;
    while let Some((newest, older)) = rest.split_last() {
        if is_sync(newest) {
            break;
        }
        fill_one(newest, byte, image);
        rest = older;
    }
}

// Puts this byte at each place that the call wrote.
fn fill_one(call: &Call, byte: u8, image: &mut [u8])
    requires { Fits (length image.old) (stop_of call.now) }
    ensures { image.new ≡ filled byte (pending_after (stop_of call.now ∷ [])) image.old }
{
    match call {
        Call::Write { at, bytes } => fill_range(image, *at, bytes.len() as u64, byte),
        Call::ShortWrite { at, bytes } => {
            fill_range(image, *at, bytes.as_slice().len() as u64, byte)
        }
        Call::FailedWrite { at, len } => fill_range(image, *at, *len, byte),
        Call::Sync | Call::FailedSync => (),
    }
}

fn fill_range(image: &mut [u8], at: u64, len: u64, byte: u8)
    requires { at + len ≤ length image.old }
    ensures { image.new ≡ spliced image.old at (replicate len byte) }
{
    let start = at as usize;
    image[start..start + len as usize].fill(byte);
}
