//! A call of the device, and what a disk hands over at once.
ghost use Rattle.std.specs.Prelude.{◌≡◌, ◌+◌, ◌*◌, ◌<◌, ◌==◌, ◌&&◌, true, false, nat_le};
ghost use Rattle.disk_deferred.specs.declared.call.TheConstants.{MOST_BYTES};

use block_disk::Trace;

/// Writes that are joined to one call have so many bytes at most.
pub const MOST_BYTES: usize = 4096;

/// A call that the host has to make on its device.
#[derive(Debug, Drop)]
pub enum DeviceCall {
    /// Write these bytes at this place, which counts bytes from 0.
    Write { at: u64, bytes: Vec<u8> },
    /// Make durable what was written.
    Sync,
}

/// What goes through the ring at once.
#[derive(Drop)]
pub(crate) enum Handed {
    /// The device when it is taken over: its bytes, which only clauses read.
    Begun(Trace),
    /// Calls, the oldest first.
    Calls(Vec<DeviceCall>),
}

impl DeviceCall {
    ghost use Rattle.std.specs.Prelude.{◌≡◌, ◌<◌, ◌*◌, true, false};
    ghost use Rattle.disk_deferred.specs.Deferred.{stop_of};
    ghost use Rattle.disk_deferred.specs.Joined.{goes_on_with, longer_if};

    /// Whether a write of so many bytes at `at` goes on where this one ended, and both together have [`MOST_BYTES`] at most.
    pub(crate) fn takes(&self, at: u64, size: usize) -> bool
        ensures { result ≡ goes_on_with (stop_of self.now) at size }
    {
        match self {
            DeviceCall::Write { at: from, bytes } => {
                is_end(*from, bytes.len(), at) && have_room(bytes.len(), size)
            }
            DeviceCall::Sync => false,
        }
    }

    /// How many writes of 16 bytes each, each at the end of the one before, go on where this one ended, if they begin at
    /// `at`. All together have [`MOST_BYTES`] at most.
    pub(crate) fn room_at(&self, at: u64) -> usize
        ensures some { 0 < result → goes_on_with (stop_of self.now) at (result * 16) ≡ true }
        ensures none { result ≡ 0 → goes_on_with (stop_of self.now) at 16 ≡ false }
    {
        match self {
            DeviceCall::Write { at: from, bytes } => room_behind(*from, bytes.len(), at),
            DeviceCall::Sync => 0,
        }
    }

    /// Writes these bytes too, after its own, if there is memory for them.
    pub(crate) fn lengthen(&mut self, more: &[u8]) -> bool
        ensures { stop_of self.new ≡ longer_if result (stop_of self.old) more.now }
    {
        match self {
            DeviceCall::Write { bytes, .. } => bytes.extend_from_slice(more).is_ok(),
            DeviceCall::Sync => false,
        }
    }
}

// How many writes of 16 bytes each, from `at` on, so many bytes from `from` on take.
fn room_behind(from: u64, size: usize, at: u64) -> usize
    ensures some { 0 < result → ((from + size == at) && nat_le (size + result * 16) MOST_BYTES)
        ≡ true }
    ensures none { result ≡ 0 → ((from + size == at) && nat_le (size + 16) MOST_BYTES) ≡ false }
{
    if size <= MOST_BYTES && is_end(from, size, at) {
        return (MOST_BYTES - size) / 16;
    }
    0
}

// Whether so many bytes from `from` on end at `at`.
fn is_end(from: u64, size: usize, at: u64) -> bool
    ensures { result ≡ (from + size == at) }
{
    from <= at && at - from == size as u64
}

// Whether so many bytes and so many more have MOST_BYTES at most.
fn have_room(size: usize, more: usize) -> bool
    ensures { result ≡ nat_le (size + more) MOST_BYTES }
{
    size <= MOST_BYTES && more <= MOST_BYTES - size
}
