//! What a disk was asked for, as only clauses read it.
ghost use Rattle.std.specs.Prelude.{◌≡◌, [], replicate};
ghost use Rattle.std.specs.Borrow.{ftrue};
ghost use Rattle.block_disk.specs.Traced.{Traced, and_synced, and_units, and_written, begun, noted};

use std::marker::{Model, PhantomData};

/// The calls that a disk was asked for, and the device that they have made, with all its moments. It takes no bytes, and its methods do
/// nothing at run time.
///
/// No memory holds them, so a disk that keeps a trace has to say by its invariant what in its memory, or in its file, agrees with it. How
/// often it has failed it counts itself.
#[derive(Drop)]
pub struct Trace {
    marker: PhantomData<u8>,
    pub ghost past: { Traced },
}

impl Model for Trace {
    ghost also_owns = { λ _. ftrue };
}

// It owns nothing.
unsafe impl Send for Trace {}

impl Trace {
    // Proved by hand, since it sets what no memory holds.
    fn new() -> Trace
        ensures { result.past ≡ begun [] }
    {
        Trace {
            marker: PhantomData,
        }
    }

    // Proved by hand. What the numbers say `noted` has.
    fn note(&mut self, _numbers: &[u64], _bytes: &[u8])
        ensures { self.new.past ≡ noted _numbers.now _bytes.now self.old.past }
    {}

    /// A device of these bytes that nothing was asked of yet.
    pub fn of(bytes: &[u8]) -> Trace
        ensures { result.past ≡ begun bytes.now }
    {
        let mut trace = Trace::new();
        trace.note(&[0, 0, 0, 0], bytes);
        trace
    }

    /// A write of these bytes at `at` succeeds.
    pub fn write(&mut self, at: u64, bytes: &[u8])
        ensures { self.new.past ≡ and_written at bytes.now self.old.past }
    {
        self.note(&[at], bytes);
    }

    /// So many writes of 16 bytes each succeed, one right behind the other, from `at` on.
    pub fn write_units(&mut self, at: u64, bytes: &[u8], count: usize)
        ensures { self.new.past ≡ and_units count at bytes.now self.old.past }
    {
        self.note(&[at, count as u64], bytes);
    }

    /// So many bytes from `at` on can't be read from now on. A place that can't be read has the number 256 for a byte.
    pub fn lose(&mut self, at: u64, len: u64)
        ensures { self.new.past ≡ and_written at (replicate len 256) self.old.past }
    {
        self.note(&[at, len, 0], &[]);
    }

    /// A sync succeeds.
    pub fn sync(&mut self)
        ensures { self.new.past ≡ and_synced self.old.past }
    {
        self.note(&[], &[]);
    }
}
