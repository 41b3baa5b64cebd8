//! The images that words name by paths.
ghost use Rattle.std.specs.Prelude.{◌≡◌, ◌⊎◌, ◌↔◌, ℕ, List, [], Option, replicate, IfErr, IfOk, IfSome, IsTrue, OnErr, OnOk};
ghost use Rattle.block_disk.specs.Device.{Device, new_device};
ghost use Rattle.disk_sector_file.specs.declared.image_kind.ImageKind.{ImageKind as Kind};
ghost use Rattle.disk_sector_file.specs.ImageDisks.{room_for};
ghost use Rattle.image_file.specs.Beside.{IsKept, KeepsBeside, LeavesBeside, LiesOn, LeavesBesideIt, kept_at};
ghost use Rattle.image_file.specs.Images.{BeginsThere, IsLeft, IsThere, MayNotBeHad};

use crate::error::FileFault;
use block_disk::Disk;
use disk_file::VolatileDisk;
use disk_sector_file::ImageKind;
use std::alloc::Global;

/// The images that words name by paths, and the disks that they are.
///
/// What is said here of an image is all that words know of it: they work over any such images. With the files of the system it is done by
/// [`FileImages`](crate::FileImages), of which the clauses are trusted, since no contract says what a file holds.
pub trait Images {
    /// The disk of an image.
    type Medium: Disk + Drop;

    /// The bytes of the image at a path, where they are known; none of them where no file is there, or an empty one.
    ghost holds: { Self → List ℕ → Option (List ℕ) };

    /// How the image at a path lies, where that is known.
    ghost lies: { Self → List ℕ → Option Kind };

    /// Whether there is no file at the path, or an empty one. `NotImage`: there is a file with other bytes than an image's.
    fn is_vacant(&mut self, path: &str) -> Result<bool, FileFault>
        ensures ok { IfOk result
            (λ vacant. IfSome (holds self.old path.now) (λ image. IsTrue vacant ↔ (image ≡ []))) }
        ensures same { holds self.new path.now ≡ holds self.old path.now }
        ensures beside { LeavesBeside path.now (holds self.old) (holds self.new) (lies self.old)
            (lies self.new) };

    /// How many bytes the image at the path has, and how it lies.
    fn shape(&mut self, path: &str) -> Result<(u64, ImageKind), FileFault>
        ensures ok { IfOk result
            (λ shape. IfSome (lies self.old path.now) (λ kind. kind ≡ shape.1)) }
        ensures same { holds self.new path.now ≡ holds self.old path.now }
        ensures beside { LeavesBeside path.now (holds self.old) (holds self.new) (lies self.old)
            (lies self.new) };

    /// The bytes of the image at the path.
    fn read(&mut self, alloc: Global, path: &str) -> Result<Vec<u8>, FileFault>
        ensures ok { IfOk result (λ image. IsThere image.items (holds self.old path.now)) }
        ensures same { holds self.new path.now ≡ holds self.old path.now }
        ensures beside { LeavesBeside path.now (holds self.old) (holds self.new) (lies self.old)
            (lies self.new) };

    /// What the image at the path begins with, as far as its header says that it goes. Nothing can be written to it, and others may read it
    /// meanwhile.
    ///
    /// `NotImage`: what is there isn't one; `InUse`: another process has it.
    fn look(&mut self, alloc: Global, path: &str) -> Result<Vec<u8>, FileFault>
        // What is looked at is what the image at the path begins with.
        ensures ok { IfOk result (λ image. BeginsThere image.items (holds self.old path.now)) }
        // What is looked at is told as no image only where it doesn't begin with an image's name and an open gate.
        ensures refused { IfErr result (λ why. MayNotBeHad why (holds self.old path.now)) }
        ensures same { holds self.new path.now ≡ holds self.old path.now }
        ensures beside { LeavesBeside path.now (holds self.old) (holds self.new) (lies self.old)
            (lies self.new) };

    /// The disk of the image at the path, which nobody else has until it is dropped.
    ///
    /// `NotImage`: what is there isn't one; `InUse`: another process has it.
    fn open(&mut self, alloc: Global, path: &str) -> Result<Self::Medium, FileFault>
        ensures fresh { IfOk result
            (λ disk. Self.Medium.device disk ≡ new_device (Self.Medium.device disk).now.bytes) }
        // A disk that is opened at a path has the bytes of the image there.
        ensures ok { IfOk result
            (λ disk. IsThere (Self.Medium.device disk).now.bytes (holds self.old path.now)) }
        // What is opened is told as no image only where it doesn't begin with an image's name and an open gate.
        ensures refused { IfErr result (λ why. MayNotBeHad why (holds self.old path.now)) }
        ensures err { OnErr result (holds self.new path.now ≡ holds self.old path.now) }
        ensures beside { LeavesBeside path.now (holds self.old) (holds self.new) (lies self.old)
            (lies self.new) };

    /// Gives back the disk of the image at the path: one that was opened there, or that has replaced what was there.
    fn close(&mut self, path: &str, disk: Self::Medium)
        ensures left { IsLeft (Self.Medium.device disk).now (holds self.new path.now) }
        ensures beside { LeavesBeside path.now (holds self.old) (holds self.new) (lies self.old)
            (lies self.new) };

    /// A disk of zeros of this kind for a new image at the path, which has room for so many bytes. What is there stays, and is kept from
    /// others until the new one has replaced it, or is given up.
    ///
    /// `NotImage`: there is a file with other bytes than an image's; `InUse`: another process has what is there.
    fn make(
        &mut self,
        alloc: Global,
        path: &str,
        kind: ImageKind,
        size: u64,
    ) -> Result<Self::Medium, FileFault>
        // A disk that is made to replace an image has zeros.
        ensures ok { IfOk result
            (λ disk. Self.Medium.device disk ≡ new_device (replicate (room_for kind size) 0)) }
        // Making a disk leaves the image at the path.
        ensures same { holds self.new path.now ≡ holds self.old path.now }
        // Making a disk loses nothing beside the path.
        ensures beside { LeavesBeside path.now (holds self.old) (holds self.new) (lies self.old)
            (lies self.new) };

    /// Puts this disk in the place of what is at the path. It is the one that was made last for this path, of this kind; else that is a
    /// `Fault`. Where `is_kept`, an image that was there stays beside it, at the path with `~` at its end.
    fn replace(
        &mut self,
        path: &str,
        kind: ImageKind,
        disk: &Self::Medium,
        is_kept: bool,
    ) -> Result<(), FileFault>
        // After a replacing the image at the path is what a crash may leave of the disk.
        ensures ok { OnOk result
            (IsLeft (Self.Medium.device disk.now).now (holds self.new path.now)) }
        ensures lies { OnOk result (LiesOn kind (lies self.new path.now)) }
        // An image that is to be kept is at the path with `~` once another has replaced it; where none is to be kept, or none
        // was there, what was kept before remains.
        ensures kept { OnOk result
            (IsKept is_kept (holds self.old path.now) (holds self.old (kept_at path.now))
            (holds self.new (kept_at path.now))) }
        // A failed replacing leaves the old image at the path, or the whole new one.
        ensures err { OnErr result ((holds self.new path.now ≡ holds self.old path.now) ⊎ IsLeft (Self.Medium.device disk.now).now (holds self.new path.now)) }
        ensures lies_or_not { OnErr result
            ((lies self.new path.now ≡ lies self.old path.now) ⊎ LiesOn kind (lies self.new path.now)) }
        // A replacing, failed or not, loses nothing beside the path: what is kept there remains, or is the old image where that
        // is to be kept, and what is elsewhere remains.
        ensures beside { KeepsBeside is_kept path.now (holds self.old) (holds self.new) };

    /// Removes what was made last for this path, unless it has replaced what was there.
    fn give_up(&mut self, path: &str)
        // Giving a disk up leaves the image at the path.
        ensures same { holds self.new path.now ≡ holds self.old path.now }
        // Giving a disk up loses nothing beside the path.
        ensures beside { LeavesBeside path.now (holds self.old) (holds self.new) (lies self.old)
            (lies self.new) };
}

/// A disk in memory that holds what the image at the path begins with, as far as its header says that it goes, so that no call reaches the
/// image. Refused as of [`look`](Images::look).
pub fn look_at<D: Disk + Drop, P: Images<Medium = D>>(
    images: &mut P,
    alloc: Global,
    path: &str,
) -> Result<VolatileDisk, FileFault>
    ensures ok { IfOk result
        (λ (disk : Device). BeginsThere disk.now.bytes (P.holds images.old path.now)) }
    ensures refused { IfErr result (λ why. MayNotBeHad why (P.holds images.old path.now)) }
    ensures same { P.holds images.new path.now ≡ P.holds images.old path.now }
    ensures beside { LeavesBesideIt path.now P.holds P.lies images.old images.new }
{
    match images.look(alloc, path) {
        Ok(image) => Ok(VolatileDisk::holding(image)),
        Err(fault) => Err(fault),
    }
}
