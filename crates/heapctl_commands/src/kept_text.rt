//! The text of a script, kept while it is read, for who tells of its lines.
ghost use Rattle.std.specs.Prelude.{◌≡◌};

use std::alloc::Global;
use std::io;
use std::io::Read;

/// A reader whose text is kept where it is asked to, as long as there is memory.
#[derive(Drop)]
pub struct KeptText<R: Drop> {
    inner: R,
    is_kept: bool,
    text: Vec<u8>,
}

impl<R: Drop> KeptText<R> {
    /// Nothing is read yet.
    pub fn new(alloc: Global, inner: R, is_kept: bool) -> KeptText<R>
        ensures { result.inner ≡ inner }
    {
        KeptText {
            inner,
            is_kept,
            text: Vec::new(alloc),
        }
    }

    /// What was read, where it is kept.
    pub fn text(&self) -> &[u8] {
        &self.text
    }
}

// Adds what was read. Where there is no memory nothing is kept.
fn keep(text: &mut Vec<u8>, is_kept: bool, bytes: &[u8]) -> bool {
    if is_kept && text.extend_from_slice(bytes).is_ok() {
        return true;
    }
    text.clear();
    false
}

impl<R: Read + Drop> Read for KeptText<R> {
    ghost remaining = { λ k. R.remaining k.inner };

    fn read(&mut self, buf: &mut [u8]) -> io::Result<usize> {
        match self.inner.read(buf) {
            Ok(count) => {
                self.is_kept = keep(&mut self.text, self.is_kept, &buf[..count]);
                Ok(count)
            }
            Err(error) => Err(error),
        }
    }
}
