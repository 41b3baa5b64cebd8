//! Which sectors of an area may hold something else than the image does.
ghost use Rattle.std.specs.Prelude.{◌≡◌, ◌+◌, ◌^◌, ◌<◌, ◌≤◌, true, false, length, replicate, slice_index_or, IfOk, List};
ghost use Rattle.disk_sectors.specs.Size.{bytes_in, place_of};
ghost use Rattle.disk_sectors.specs.Marks.{MarksBytes, MarksFrom};

use crate::size::SectorSize;
use std::alloc::{AllocError, Global};
use std::marker::Model;

/// A mark for each sector.
#[derive(Drop)]
pub(crate) struct Marks {
    marks: Vec<bool>,
}

impl Model for Marks {
    ghost use Rattle.std.specs.Prelude.{Bool, List};

    ghost Value = { List Bool };

    ghost view = { λ m. m.marks.items };
}

impl Marks {
    /// So many sectors, all of them marked or none.
    pub(crate) fn all(alloc: Global, count: usize, are_marked: bool) -> Result<Marks, AllocError>
        ensures { IfOk result (λ marks. marks ≡ replicate count are_marked) }
    {
        let marks = vec![in alloc; are_marked; count]?;
        Ok(Marks { marks })
    }

    /// How many sectors there are.
    pub(crate) fn count(&self) -> usize
        ensures { result ≡ length self.now }
    {
        self.marks.len()
    }

    /// Whether this one is marked.
    pub(crate) fn has(&self, i: usize) -> bool
        requires { i < length self.now }
        ensures { result ≡ slice_index_or self.now i true }
    {
        self.marks[i]
    }

    /// Marks each sector in which some of these bytes lie.
    pub(crate) fn mark(&mut self, size: SectorSize, at: usize, len: usize)
        requires fits { at + len ≤ place_of size (length self.old) }
        requires bound { place_of size (length self.old) < 2 ^ 63 }
        ensures count { length self.new ≡ length self.old }
        ensures marked { MarksBytes size at len self.old self.new }
    {
        let from = at / size.bytes();
        let to = sectors_of(at + len, size);
        mark_all(&mut self.marks, from, to);
    }

    /// Takes all marks away.
    pub(crate) fn clear(&mut self)
        ensures { length self.new ≡ length self.old }
    {
        let count = self.marks.len();
        clear_all(&mut self.marks, count);
    }
}

// How many sectors so many bytes take.
fn sectors_of(len: usize, size: SectorSize) -> usize
    requires { len < 2 ^ 63 }
    ensures within { len ≤ place_of size result }
    ensures least { place_of size result < len + bytes_in size }
{
    match size {
        SectorSize::Bytes512 => (len + 511) / 512,
        SectorSize::Bytes4096 => (len + 4095) / 4096,
    }
}

// Marks the sectors of these numbers.
fn mark_all(marks: &mut Vec<bool>, from: usize, to: usize)
    requires { to ≤ length marks.old.items }
    ensures count { length marks.new.items ≡ length marks.old.items }
    ensures marked { MarksFrom from to marks.old.items marks.new.items }
{
    for i in from..to {
        marks[i] = true;
    }
}

fn clear_all(marks: &mut Vec<bool>, count: usize)
    requires { count ≡ length marks.old.items }
    ensures { length marks.new.items ≡ length marks.old.items }
{
    for i in 0..count {
        marks[i] = false;
    }
}
