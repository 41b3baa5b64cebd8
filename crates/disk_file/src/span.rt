//! Bytes that were written and aren't yet in a file.
ghost use Rattle.std.specs.Prelude.{◌≡◌, ◌↔◌, ◌+◌, ◌≤◌, IsTrue, IsFalse, if◌then◌else◌};
ghost use Rattle.block_disk.specs.Device.{Range};
ghost use Rattle.disk_file.specs.Buffered.{AllWithin, Covers, IsWithin, JoinsWhere, LastCovers, TakesBoth, TakesNoMore, and_range, kept_after};

use std::marker::Model;

/// The bytes from `start` on, `len` of them.
#[derive(Clone, Copy)]
pub(crate) struct Span {
    start: u64,
    len: u64,
}

impl Model for Span {
    ghost use Rattle.block_disk.specs.Device.{Range};

    ghost Value = { Range };

    ghost view = { λ s. record { start = s.start; len = s.len } };

    ghost inverse = { λ r. record { start = r.start; len = r.len } };
}

impl Span {
    pub(crate) fn new(start: u64, len: u64) -> Span
        ensures { result ≡ record { start = start; len = len } }
    {
        Span { start, len }
    }

    pub(crate) fn start(&self) -> u64
        ensures { result ≡ self.now.start }
    {
        self.start
    }

    pub(crate) fn len(&self) -> u64
        ensures { result ≡ self.now.len }
    {
        self.len
    }
}

/// Adds a range, joined to the last one where it begins within that or right behind it. `false` where there is no memory
/// for it; then all is as it was.
pub(crate) fn add(spans: &mut Vec<Span>, start: u64, len: u64, size: u64) -> bool
    requires within { start + len ≤ size }
    requires others { AllWithin size spans.old.items }
    ensures within { AllWithin size spans.new.items }
    // The ranges that a sync writes cover all that was written since the last sync that succeeded.
    ensures covered { IsTrue result → Covers spans.new.items (and_range start len spans.old.items) }
    // The ranges that a sync writes have no byte that wasn't written since the last sync that succeeded.
    ensures exact { IsTrue result → Covers (and_range start len spans.old.items) spans.new.items }
    ensures newest { IsTrue result
        → LastCovers (record { start = start; len = len }) spans.new.items }
    ensures goes_on { JoinsWhere start spans.old.items result }
    ensures same { IsFalse result → spans.new.items ≡ spans.old.items }
{
    if join(spans, start, len, size) {
        return true;
    }
    push(spans, Span::new(start, len), size)
}

// Adds a range behind the others.
fn push(spans: &mut Vec<Span>, span: Span, size: u64) -> bool
    requires within { IsWithin size span }
    requires others { AllWithin size spans.old.items }
    ensures within { AllWithin size spans.new.items }
    ensures added { spans.new.items ≡ kept_after result span spans.old.items }
{
    spans.push(span).is_ok()
}

// Joins a range to the last one, if it begins within that or right behind it.
fn join(spans: &mut Vec<Span>, start: u64, len: u64, size: u64) -> bool
    requires within { start + len ≤ size }
    requires others { AllWithin size spans.old.items }
    ensures within { AllWithin size spans.new.items }
    ensures covered { IsTrue result → Covers spans.new.items (and_range start len spans.old.items) }
    ensures exact { IsTrue result → Covers (and_range start len spans.old.items) spans.new.items }
    ensures newest { IsTrue result
        → LastCovers (record { start = start; len = len }) spans.new.items }
    ensures goes_on { JoinsWhere start spans.old.items result }
    ensures same { IsFalse result → spans.new.items ≡ spans.old.items }
{
    let count = spans.len();
    if count == 0 {
        return false;
    }
    let last = spans[count - 1];
    if !follows(last, start, size) {
        return false;
    }
    spans[count - 1] = joined(last, start, len, size);
    true
}

// Whether a range that begins there begins within this one or right behind it.
fn follows(last: Span, start: u64, size: u64) -> bool
    requires { IsWithin size last }
    ensures { IsTrue result ↔ ((last.start ≤ start) × (start ≤ last.start + last.len)) }
{
    let _size = size;
    last.start() <= start && start - last.start() <= last.len()
}

// The range that takes both.
fn joined(last: Span, start: u64, len: u64, size: u64) -> Span
    requires last { IsWithin size last }
    requires within { start + len ≤ size }
    requires low { last.start ≤ start }
    requires high { start ≤ last.start + last.len }
    ensures within { IsWithin size result }
    ensures both { TakesBoth last start len result }
    ensures covers { (result.start ≤ start) × (start + len ≤ result.start + result.len) }
    ensures exact { TakesNoMore last start len result }
{
    let _size = size;
    let first = last.start();
    let reached = start - first + len;
    if reached > last.len() {
        Span::new(first, reached)
    } else {
        last
    }
}
