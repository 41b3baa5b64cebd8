//! Files and writers whose first failing call is noted.
ghost use Rattle.std.specs.Prelude.{◌≡◌};

use crate::trouble::{Place, Trouble};
use disk_file::{BackingFile, Claim};
use std::io;
use std::io::{Read, Write};

/// A file, reader or writer whose first failing call is noted as trouble with this place.
#[derive(Drop)]
pub struct Watched<'a, T: Drop> {
    inner: T,
    place: Place,
    trouble: &'a Trouble,
}

impl<'a, T: Drop> Watched<'a, T> {
    /// It is watched from now on.
    pub fn new(inner: T, place: Place, trouble: &'a Trouble) -> Watched<'a, T>
        ensures { result.inner ≡ inner }
    {
        Watched {
            inner,
            place,
            trouble,
        }
    }
}

// The answer as it came, noted where it is an error.
fn noted<T>(answer: io::Result<T>, place: Place, trouble: &Trouble) -> io::Result<T>
    ensures { result ≡ answer }
{
    if let Err(error) = &answer {
        trouble.note(place, error);
    }
    answer
}

impl<F: BackingFile + Drop> BackingFile for Watched<'_, F> {
    ghost holds = { λ w. F.holds w.inner };

    fn len(&self) -> io::Result<u64> {
        noted(self.inner.len(), self.place, self.trouble)
    }

    fn empty(&mut self) -> io::Result<()> {
        noted(self.inner.empty(), self.place, self.trouble)
    }

    fn read_from(&mut self, at: u64, out: &mut [u8]) -> io::Result<()> {
        noted(self.inner.read_from(at, out), self.place, self.trouble)
    }

    fn write_to(&mut self, at: u64, bytes: &[u8]) -> io::Result<()> {
        noted(self.inner.write_to(at, bytes), self.place, self.trouble)
    }

    fn write_back(&mut self, at: u64) -> io::Result<()> {
        noted(self.inner.write_back(at), self.place, self.trouble)
    }

    fn settle(&mut self) -> io::Result<()> {
        noted(self.inner.settle(), self.place, self.trouble)
    }

    fn claim(&self, claim: Claim) -> io::Result<bool> {
        noted(self.inner.claim(claim), self.place, self.trouble)
    }
}

impl<R: Read + Drop> Read for Watched<'_, R> {
    ghost remaining = { λ w. R.remaining w.inner };

    fn read(&mut self, buf: &mut [u8]) -> io::Result<usize> {
        noted(self.inner.read(buf), self.place, self.trouble)
    }
}

impl<W: Write + Drop> Write for Watched<'_, W> {
    ghost contents = { λ w. W.contents w.inner };

    fn write(&mut self, buf: &[u8]) -> io::Result<usize> {
        noted(self.inner.write(buf), self.place, self.trouble)
    }

    fn flush(&mut self) -> io::Result<()> {
        noted(self.inner.flush(), self.place, self.trouble)
    }
}
