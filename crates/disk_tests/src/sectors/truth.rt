//! What a disk must hold.
use crate::sectors::chance::Chance;
use disk_sectors::SectorSize;
use std::alloc::Global;

/// What was written, and where since the last sync.
#[derive(Drop)]
pub(crate) struct Truth {
    pub(crate) bytes: Vec<u8>,
    pub(crate) pending: Vec<bool>,
}

impl Truth {
    /// A disk of so many zeros.
    pub(crate) fn zeros(alloc: Global, len: usize) -> Option<Truth> {
        let bytes = vec![in alloc; 0u8; len].ok()?;
        Truth::holding(alloc, bytes)
    }

    /// A disk of these bytes, durably.
    pub(crate) fn holding(alloc: Global, bytes: Vec<u8>) -> Option<Truth> {
        match vec![in alloc; false; bytes.len()] {
            Ok(pending) => Some(Truth { bytes, pending }),
            Err(_) => {
                drop(bytes);
                None
            }
        }
    }

    /// All is durable.
    pub(crate) fn settle(&mut self) {
        self.pending.fill(false);
    }

    /// Notes one byte that is written.
    pub(crate) fn note(&mut self, at: usize, byte: u8) {
        if at < self.bytes.len() {
            self.bytes[at] = byte;
        }
        if at < self.pending.len() {
            self.pending[at] = true;
        }
    }

    /// Whether a byte of this sector was written since the last sync.
    pub(crate) fn is_pending(&self, i: usize, size: SectorSize) -> bool {
        let len = size.bytes();
        if i < self.pending.len() / len {
            self.pending[i * len..i * len + len].contains(&true)
        } else {
            false
        }
    }

    /// Whether these bytes may be found after a crash: those that aren't pending are there, or all are.
    pub(crate) fn allows(&self, found: &[u8], are_all_durable: bool) -> bool {
        if found.len() != self.bytes.len() {
            return false;
        }
        for i in 0..found.len() {
            let may_differ = !are_all_durable && i < self.pending.len() && self.pending[i];
            if !may_differ && i < self.bytes.len() && found[i] != self.bytes[i] {
                return false;
            }
        }
        true
    }
}

/// Some bytes that are to be written: where they begin and how many there are.
#[derive(Clone, Copy)]
pub(crate) struct Run {
    pub(crate) at: usize,
    pub(crate) len: usize,
}

/// Notes a run of bytes by chance, up to 24.
pub(crate) fn change(truth: &mut Truth, chance: &mut Chance) -> Run {
    let len = truth.bytes.len() as u64;
    if len < 24 {
        return Run { at: 0, len: 0 };
    }
    let at = chance.below(len - 23) as usize;
    let count = 1 + chance.below(24) as usize;
    for i in 0..count {
        let byte = chance.below(256) as u8;
        truth.note(at + i, byte);
    }
    Run { at, len: count }
}

/// The bytes of a run.
pub(crate) fn bytes_of(truth: &Truth, run: Run) -> &[u8] {
    if run.at <= truth.bytes.len() && run.len <= truth.bytes.len() - run.at {
        &truth.bytes[run.at..run.at + run.len]
    } else {
        &truth.bytes[..0]
    }
}

/// A stop by chance: one of those behind the first so many, or the one behind the last.
pub(crate) fn stop_between(before: u64, after: u64, chance: &mut Chance) -> u64 {
    let count = after.saturating_sub(before).saturating_add(1);
    if count == 0 {
        return after;
    }
    before.saturating_add(1).saturating_add(chance.below(count))
}
