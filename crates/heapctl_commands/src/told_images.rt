//! Images whose long calls are told of on standard error.

use block_disk::Disk;
use disk_sector_file::ImageKind;
use image_file::{FileFault, Images};
use std::alloc::Global;
use std::rt::Files;

// A call on fewer bytes is short.
const LONG: u64 = 64 << 20;

/// Images, of which each call that takes long is told before it is made, where it is to tell: that an image of so many bytes is read, made or
/// written.
#[derive(Drop)]
pub struct ToldImages<'a, P: Drop, R> {
    inner: P,
    rt: &'a R,
    is_told: bool,
}

impl<'a, P: Drop, R> ToldImages<'a, P, R> {
    /// These images.
    pub fn new(rt: &'a R, inner: P, is_told: bool) -> ToldImages<'a, P, R> {
        ToldImages { inner, rt, is_told }
    }
}

impl<P: Drop, R: Files + Eprint> ToldImages<'_, P, R> {
    // Tells what is done at this path, where the image has so many bytes.
    fn tell(&self, path: &str, done: &str, size: u64) {
        if self.is_told && size >= LONG {
            let megabytes = size / 1_000_000;
            let _ = eprintln!(self.rt; "heapctl: {path}: {done}, {megabytes} MB");
        }
    }

    // The same of the file that is there.
    fn tell_there(&self, path: &str, done: &str) {
        if let Ok(metadata) = self.rt.metadata(path) {
            self.tell(path, done, metadata.len());
        }
    }
}

impl<D, P, R> Images for ToldImages<'_, P, R>
where
    D: Disk + Drop,
    P: Images<Medium = D> + Drop,
    R: Files + Eprint,
{
    type Medium = D;

    ghost holds = { λ t. P.holds t.inner };

    ghost lies = { λ t. P.lies t.inner };

    fn is_vacant(&mut self, path: &str) -> Result<bool, FileFault> {
        self.inner.is_vacant(path)
    }

    fn shape(&mut self, path: &str) -> Result<(u64, ImageKind), FileFault> {
        self.inner.shape(path)
    }

    fn read(&mut self, alloc: Global, path: &str) -> Result<Vec<u8>, FileFault> {
        self.tell_there(path, "reads the image");
        self.inner.read(alloc, path)
    }

    fn look(&mut self, alloc: Global, path: &str) -> Result<Vec<u8>, FileFault> {
        self.tell_there(path, "reads the image");
        self.inner.look(alloc, path)
    }

    fn open(&mut self, alloc: Global, path: &str) -> Result<D, FileFault> {
        self.tell_there(path, "reads the image");
        self.inner.open(alloc, path)
    }

    fn close(&mut self, path: &str, disk: D) {
        self.inner.close(path, disk);
    }

    fn make(
        &mut self,
        alloc: Global,
        path: &str,
        kind: ImageKind,
        size: u64,
    ) -> Result<D, FileFault> {
        self.tell(path, "makes a new image", size);
        self.inner.make(alloc, path, kind, size)
    }

    fn replace(
        &mut self,
        path: &str,
        kind: ImageKind,
        disk: &D,
        is_kept: bool,
    ) -> Result<(), FileFault> {
        self.tell(path, "puts the new image in its place", disk.size());
        self.inner.replace(path, kind, disk, is_kept)
    }

    fn give_up(&mut self, path: &str) {
        self.inner.give_up(path);
    }
}
