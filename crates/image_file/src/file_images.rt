//! The images in files of the system.
ghost use Rattle.std.specs.Prelude.{◌≡◌, [], ◌∷◌, None};
ghost use Rattle.image_parts.specs.Slots.{slot_at};
ghost use Rattle.image_parts.specs.declared.slot.Slot.TheVariants.{A, B};

use crate::claiming::{
    Content, claim, claim_at, claim_image, content_of, is_device, is_same, no_file, sync_folder_of,
};
use crate::devices::{Beginning, take_device};
use crate::error::FileFault;
use crate::images::Images;
use crate::reading::read_there;
use crate::trouble::{Place, Trouble};
use crate::watched::Watched;
use disk_file::{BackingFile, Claim};
use disk_sector_file::{FileLabel, ImageDisk, ImageKind, label_of, whole_image};
use std::alloc::Global;
use std::fs::{Metadata, OpenFile, OpenOptions};
use std::io::{ErrorKind, Read};
use std::os::unix::fs::MetadataExt;
use std::rt::Files;
use std::{fs, io};

/// What stands at the end of an image's path while a new one is made beside it.
pub const BESIDE: &str = ".heapctl-new";

/// What stands at the end of the path at which a replaced image is kept.
pub const KEPT: &str = "~";

/// What is noted where another process has the image that is kept there (EBUSY).
pub const KEPT_IN_USE: i32 = 16;

/// What stands at the end of the path at which it passes, on its way there.
pub const PASSING: &str = ".heapctl-old";

// What is noted where something else is there (EEXIST).
const IS_THERE: i32 = 17;

/// The images in files of the system.
///
/// A new image is made in a file beside the path, which takes its place once it is whole: a stop at any time leaves what was there, or the
/// new one. On a block device it is made in place, where all bytes that it takes are zeros: a stop leaves no image, or the new one. Both files are claimed until another image is made, or this is dropped, so that no other process works on either.
#[derive(Drop)]
pub struct FileImages<'a, F: BackingFile + Drop, R> {
    rt: &'a R,
    trouble: &'a Trouble,
    taken: Option<Taken<F>>,
}

// The place that was taken for a new image.
#[derive(Drop)]
struct Taken<F: Drop> {
    names: Names,
    kind: ImageKind,
    // What was there, which is claimed, and the file in which the new one is made.
    old: Option<F>,
    new: F,
    // The new one is at the path.
    is_there: bool,
    // It is made there, on a block device.
    is_in_place: bool,
}

// The path that was named; where the image is to be, at the end of links; where it is made; where one that was there is kept; and by
// what name it passes on its way there.
#[derive(Drop)]
struct Names {
    path: String,
    target: String,
    beside: String,
    kept: String,
    passing: String,
}

impl<'a, F, R> FileImages<'a, F, R>
where
    F: BackingFile + OpenFile + Drop,
    R: Files<File = F>,
{
    /// No file is touched yet. What the system says of a call that fails is noted as trouble.
    pub fn new(rt: &'a R, trouble: &'a Trouble) -> FileImages<'a, F, R> {
        FileImages {
            rt,
            trouble,
            taken: None,
        }
    }
}

impl<'a, F, R> Images for FileImages<'a, F, R>
where
    F: BackingFile + OpenFile + Read + Drop,
    R: Files<File = F>,
{
    type Medium = ImageDisk<Watched<'a, Beginning<F>>>;

    ghost holds = { λ _ _. None };

    ghost lies = { λ _ _. None };

    fn is_vacant(&mut self, path: &str) -> Result<bool, FileFault> {
        match claim_at(self.rt, path, self.trouble) {
            Ok(Some(file)) => is_empty(file, self.trouble),
            Ok(None) => Ok(true),
            Err(fault) => Err(fault),
        }
    }

    fn shape(&mut self, path: &str) -> Result<(u64, ImageKind), FileFault> {
        shape_at(self.rt, path, self.trouble)
    }

    fn read(&mut self, alloc: Global, path: &str) -> Result<Vec<u8>, FileFault> {
        let file = match image_there(self.rt, alloc, path, &self.taken, self.trouble) {
            Ok(file) => file,
            Err(fault) => return Err(fault),
        };
        // Nothing is written: what is made of these bytes goes into a new file.
        match whole_image(alloc, file) {
            Ok(image) => Ok(image),
            Err(error) => Err(FileFault::from(error)),
        }
    }

    fn look(&mut self, alloc: Global, path: &str) -> Result<Vec<u8>, FileFault> {
        read_there(self.rt, alloc, path, self.trouble)
    }

    fn open(
        &mut self,
        alloc: Global,
        path: &str,
    ) -> Result<ImageDisk<Watched<'a, Beginning<F>>>, FileFault> {
        let file = match image_there(self.rt, alloc, path, &self.taken, self.trouble) {
            Ok(file) => file,
            Err(fault) => return Err(fault),
        };
        let places = gates();
        match ImageDisk::found(alloc, file, &places) {
            Ok(disk) => Ok(disk),
            Err(error) => Err(FileFault::from(error)),
        }
    }

    fn close(&mut self, _path: &str, disk: ImageDisk<Watched<'a, Beginning<F>>>) {
        drop(disk);
    }

    fn make(
        &mut self,
        alloc: Global,
        path: &str,
        kind: ImageKind,
        size: u64,
    ) -> Result<ImageDisk<Watched<'a, Beginning<F>>>, FileFault> {
        let taken = match take(self.rt, alloc, path, kind, size, self.trouble) {
            Ok(taken) => taken,
            Err(fault) => return Err(fault),
        };
        let again = taken.new.try_clone();
        let is_in_place = taken.is_in_place;
        keep(&mut self.taken, taken);
        let file = match again {
            Ok(file) => Watched::new(
                Beginning::new(file, is_in_place),
                Place::Image,
                self.trouble,
            ),
            Err(error) => return Err(noted(Place::Beside, &error, self.trouble)),
        };
        match ImageDisk::blank(alloc, file, kind, size) {
            Ok(disk) => Ok(disk),
            Err(error) => Err(FileFault::from(error)),
        }
    }

    fn replace(
        &mut self,
        path: &str,
        kind: ImageKind,
        _disk: &ImageDisk<Watched<'a, Beginning<F>>>,
        is_kept: bool,
    ) -> Result<(), FileFault> {
        let Some(taken) = &mut self.taken else {
            return Err(FileFault::Fault);
        };
        if taken.names.path.as_str() != path || taken.kind != kind {
            return Err(FileFault::Fault);
        }
        if taken.is_in_place {
            return Ok(());
        }
        if is_kept {
            if let Err((place, error)) = keep_old(self.rt, taken) {
                return Err(noted(place, &error, self.trouble));
            }
        }
        match move_over(self.rt, taken) {
            Ok(()) => Ok(()),
            Err(error) => Err(noted(Place::Beside, &error, self.trouble)),
        }
    }

    fn give_up(&mut self, path: &str) {
        if let Some(taken) = &self.taken {
            if !taken.is_there && taken.names.path.as_str() == path {
                let _ = self.rt.remove_file(taken.names.beside.as_str());
            }
        }
    }
}

// The place that was taken, in place of one that was before.
fn keep<F: Drop>(place: &mut Option<Taken<F>>, taken: Taken<F>) {
    *place = Some(taken);
}

// The places of an image's gates: of its header, and of both slots of its control. An opening writes each again with its own value, since a sync
// that has failed may have left the newest in a cache alone. Whatever else such a sync has left there, recovery writes before it counts.
fn gates() -> [u64; 3]
    ensures { result ≡ 8 ∷ slot_at A ∷ slot_at B ∷ [] }
{
    [8, 64, 1112]
}

// The file's bytes that are the image's.
fn beginning_of<F: BackingFile + OpenFile + Drop>(file: F) -> io::Result<Beginning<F>> {
    match is_device(&file) {
        Ok(is_device) => Beginning::found(file, is_device),
        Err(error) => {
            drop(file);
            Err(error)
        }
    }
}

fn noted(place: Place, error: &io::Error, trouble: &Trouble) -> FileFault {
    trouble.note(place, error);
    FileFault::Fault
}

// Whether the file, which is claimed, has no bytes. One that has other bytes than an image's is refused.
fn is_empty<F: BackingFile + OpenFile + Drop>(
    mut file: F,
    trouble: &Trouble,
) -> Result<bool, FileFault> {
    let content = content_of(&mut file, trouble);
    drop(file);
    match content {
        Ok(Content::Nothing) => Ok(true),
        Ok(Content::Image) => Ok(false),
        Ok(Content::Other) => Err(FileFault::NotImage),
        Err(fault) => Err(fault),
    }
}

// How many bytes the image in the regular file at this path has, and how it lies.
fn shape_at<F, R>(rt: &R, path: &str, trouble: &Trouble) -> Result<(u64, ImageKind), FileFault>
where
    F: BackingFile + Drop,
    R: Files<File = F>,
{
    let size = match size_at(rt, path, trouble) {
        Ok(size) => size,
        Err(fault) => return Err(fault),
    };
    let mut file = match fs::open(rt, path) {
        Ok(file) => Watched::new(file, Place::Image, trouble),
        Err(error) => return Err(noted(Place::Image, &error, trouble)),
    };
    let label = label_of(&mut file);
    drop(file);
    match label {
        Ok(Some(FileLabel::Places(label))) => {
            let len = label.count.saturating_mul(label.size.bytes() as u64);
            Ok((len, ImageKind::Placed(label.size)))
        }
        Ok(Some(FileLabel::Journal(areas))) => {
            let len = (areas.image as u64).saturating_mul(4096);
            Ok((len, ImageKind::Journaled))
        }
        Ok(None) => Ok((size, ImageKind::Plain)),
        Err(_) => Err(FileFault::Fault),
    }
}

// How many bytes the regular file at this path has.
fn size_at<R: Files>(rt: &R, path: &str, trouble: &Trouble) -> Result<u64, FileFault> {
    match rt.metadata(path) {
        Ok(metadata) => {
            if metadata.is_file() {
                Ok(metadata.len())
            } else {
                Err(FileFault::NotImage)
            }
        }
        Err(error) => Err(noted(Place::Image, &error, trouble)),
    }
}

// The bytes of the file at the path that are the image's. The file is claimed.
fn image_there<'a, F, R>(
    rt: &R,
    alloc: Global,
    path: &str,
    taken: &Option<Taken<F>>,
    trouble: &'a Trouble,
) -> Result<Watched<'a, Beginning<F>>, FileFault>
where
    F: BackingFile + OpenFile + Drop,
    R: Files<File = F>,
{
    let file = match file_there(rt, alloc, path, taken, trouble) {
        Ok(file) => file,
        Err(fault) => return Err(fault),
    };
    match beginning_of(file) {
        Ok(file) => Ok(Watched::new(file, Place::Image, trouble)),
        Err(error) => Err(noted(Place::Image, &error, trouble)),
    }
}

// The file at the path, claimed: one that was claimed for a new image is used again.
fn file_there<F, R>(
    rt: &R,
    alloc: Global,
    path: &str,
    taken: &Option<Taken<F>>,
    trouble: &Trouble,
) -> Result<F, FileFault>
where
    F: BackingFile + OpenFile + Drop,
    R: Files<File = F>,
{
    let Some(taken) = taken else {
        return claim_image(rt, alloc, path, trouble);
    };
    if taken.names.path.as_str() != path {
        return claim_image(rt, alloc, path, trouble);
    }
    let again = if taken.is_there {
        taken.new.try_clone()
    } else {
        match &taken.old {
            Some(old) => old.try_clone(),
            None => Err(no_file()),
        }
    };
    match again {
        Ok(file) => Ok(file),
        Err(error) => Err(noted(Place::Image, &error, trouble)),
    }
}

// Takes a place for a new image, at the path and beside it.
fn take<F, R>(
    rt: &R,
    alloc: Global,
    path: &str,
    kind: ImageKind,
    size: u64,
    trouble: &Trouble,
) -> Result<Taken<F>, FileFault>
where
    F: BackingFile + OpenFile + Drop,
    R: Files<File = F>,
{
    let names = match names_of(rt, alloc, path, trouble) {
        Ok(names) => names,
        Err(fault) => return Err(fault),
    };
    match take_device(rt, names.target.as_str(), kind, size, trouble) {
        Ok(Some(new)) => {
            return Ok(Taken {
                names,
                kind,
                old: None,
                new,
                is_there: true,
                is_in_place: true,
            });
        }
        Ok(None) => {}
        Err(fault) => {
            drop(names);
            return Err(fault);
        }
    }
    match take_files(rt, names.target.as_str(), names.beside.as_str(), trouble) {
        Ok((old, new)) => Ok(Taken {
            names,
            kind,
            old,
            new,
            is_there: false,
            is_in_place: false,
        }),
        Err(fault) => {
            drop(names);
            Err(fault)
        }
    }
}

fn names_of<R: Files>(
    rt: &R,
    alloc: Global,
    path: &str,
    trouble: &Trouble,
) -> Result<Names, FileFault> {
    let target = match target_of(rt, alloc, path, trouble) {
        Ok(target) => target,
        Err(fault) => return Err(fault),
    };
    match names_at(alloc, path, target) {
        Some(names) => Ok(names),
        None => Err(FileFault::NoMemory),
    }
}

// The names of a target. `None`: there was no memory.
fn names_at(alloc: Global, path: &str, target: String) -> Option<Names> {
    let path = String::from_str(alloc, path).ok()?;
    let beside = format!(in alloc; "{target}{BESIDE}").ok()?;
    let kept = format!(in alloc; "{target}{KEPT}").ok()?;
    let passing = format!(in alloc; "{target}{PASSING}").ok()?;
    Some(Names {
        path,
        target,
        beside,
        kept,
        passing,
    })
}

// What is at the path is claimed, and is an image or has no bytes; the file beside it is claimed too, and what an earlier making that was
// cut off has left there is taken for the new one.
fn take_files<F, R>(
    rt: &R,
    target: &str,
    beside: &str,
    trouble: &Trouble,
) -> Result<(Option<F>, F), FileFault>
where
    F: BackingFile + OpenFile + Drop,
    R: Files<File = F>,
{
    let old = take_old(rt, target, trouble)?;
    let new = match begin(rt, beside, trouble) {
        Ok(new) => new,
        Err(fault) => {
            drop(old);
            return Err(fault);
        }
    };
    match &old {
        Some(file) => keep_permissions(file, &new),
        None => {
            if rt.metadata(target).is_ok() {
                // Another process has made one there before this one had the file beside it.
                let _ = rt.remove_file(beside);
                drop(new);
                drop(old);
                return Err(FileFault::InUse);
            }
        }
    }
    Ok((old, new))
}

// Claims the file at the path, if one is there.
fn take_old<F, R>(rt: &R, target: &str, trouble: &Trouble) -> Result<Option<F>, FileFault>
where
    F: BackingFile + OpenFile + Drop,
    R: Files<File = F>,
{
    let Some(mut file) = claim_at(rt, target, trouble)? else {
        return Ok(None);
    };
    let fault = match content_of(&mut file, trouble) {
        Ok(Content::Nothing | Content::Image) => return Ok(Some(file)),
        Ok(Content::Other) => FileFault::NotImage,
        Err(fault) => fault,
    };
    drop(file);
    Err(fault)
}

// Where the path leads: a link stays, and what it leads to is replaced.
fn target_of<R: Files>(
    rt: &R,
    alloc: Global,
    path: &str,
    trouble: &Trouble,
) -> Result<String, FileFault> {
    let found = match rt.canonicalize(alloc, path) {
        Ok(target) => String::from_str(alloc, target.as_str()),
        Err(error) => {
            if error.kind() != ErrorKind::NotFound {
                return Err(noted(Place::Image, &error, trouble));
            }
            if rt.symlink_metadata(path).is_ok() {
                // A link to a file that isn't there would be replaced itself.
                return Err(FileFault::NotImage);
            }
            String::from_str(alloc, path)
        }
    };
    match found {
        Ok(target) => Ok(target),
        Err(_) => Err(FileFault::NoMemory),
    }
}

// Opens and claims the file beside an image's path. One that was made for this goes again where it can't be claimed, but for one that
// another process has claimed meanwhile.
fn begin<F, R>(rt: &R, beside: &str, trouble: &Trouble) -> Result<F, FileFault>
where
    F: BackingFile + OpenFile + Drop,
    R: Files<File = F>,
{
    let (file, is_made) = match open_beside(rt, beside) {
        Ok(opened) => opened,
        Err(error) => return Err(noted(Place::Beside, &error, trouble)),
    };
    match claim(rt, beside, &file, Place::Beside, trouble) {
        Ok(()) => Ok(file),
        Err(fault) => {
            if is_made && fault != FileFault::InUse {
                let _ = rt.remove_file(beside);
            }
            drop(file);
            Err(fault)
        }
    }
}

// The file at this path, and whether it was made for this. What no making has left there stays as it is: `AlreadyExists`.
fn open_beside<F, R>(rt: &R, beside: &str) -> io::Result<(F, bool)>
where
    R: Files<File = F>,
{
    let mut options = OpenOptions::new();
    options.read(true).write(true).create_new(true);
    match options.open(rt, beside) {
        Ok(file) => return Ok((file, true)),
        Err(error) => {
            if error.kind() != ErrorKind::AlreadyExists || !may_be_left(rt, beside) {
                return Err(error);
            }
        }
    }
    options.create_new(false).create(true);
    match options.open(rt, beside) {
        Ok(file) => Ok((file, false)),
        Err(error) => Err(error),
    }
}

// Whether a making that was cut off may have left what is there: a regular file without another name, and no link. Whatever else it is,
// its bytes are somebody's.
fn may_be_left<R: Files>(rt: &R, path: &str) -> bool {
    match rt.symlink_metadata(path) {
        Ok(metadata) => metadata.is_file() && metadata.nlink() < 2,
        // It is gone by now, or can't be opened either.
        Err(_) => true,
    }
}

// The new file may be read and written by whom the old one may. Where that can't be had, it is as other new files are.
fn keep_permissions<F: OpenFile>(old: &F, new: &F) {
    if let Ok(metadata) = old.metadata() {
        let _ = new.set_permissions(metadata.permissions());
    }
}

// The new image, which is durable, takes its place, durably.
fn move_over<F, R>(rt: &R, taken: &mut Taken<F>) -> io::Result<()>
where
    F: BackingFile + Drop,
    R: Files<File = F>,
{
    rt.rename(taken.names.beside.as_str(), taken.names.target.as_str())?;
    taken.is_there = true;
    sync_folder_of(rt, taken.names.target.as_str())
}

// An image that is there stays, at the path with `~` at its end; what was there goes, unless another process has it. Where that fails it is told
// of which place.
fn keep_old<F, R>(rt: &R, taken: &Taken<F>) -> Result<(), (Place, io::Error)>
where
    F: BackingFile + OpenFile + Drop,
    R: Files<File = F>,
{
    let Some(old) = &taken.old else {
        return Ok(());
    };
    if !has_bytes(old).map_err(of_kept)? {
        return Ok(());
    }
    clear_passing(rt, &taken.names, old).map_err(of_passing)?;
    let last = last_kept(rt, taken.names.kept.as_str(), old).map_err(of_kept)?;
    let kept = link_over(rt, &taken.names);
    drop(last);
    kept.map_err(of_kept)
}

fn of_kept(error: io::Error) -> (Place, io::Error) {
    (Place::Kept, error)
}

fn of_passing(error: io::Error) -> (Place, io::Error) {
    (Place::Passing, error)
}

fn has_bytes<F: BackingFile>(file: &F) -> io::Result<bool> {
    Ok(file.len()? > 0)
}

// Removes the name that a kill has left on the old image's way to `P~`. Whatever else is there is somebody's, and stays: `AlreadyExists`.
fn clear_passing<F, R>(rt: &R, names: &Names, old: &F) -> io::Result<()>
where
    F: OpenFile,
    R: Files<File = F>,
{
    let passing = names.passing.as_str();
    let Ok(there) = rt.symlink_metadata(passing) else {
        // Nothing is there, or nothing can be: then the link fails.
        return Ok(());
    };
    if !there.is_file() || (there.nlink() > 1 && !is_image_or_kept(rt, names, old, &there)) {
        return Err(io::Error::from_raw_os_error(IS_THERE));
    }
    rt.remove_file(passing)
}

// Whether this is the old image, or the one that is kept already.
fn is_image_or_kept<F, R>(rt: &R, names: &Names, old: &F, there: &Metadata) -> bool
where
    F: OpenFile,
    R: Files<File = F>,
{
    let is_image = match old.metadata() {
        Ok(here) => is_same(there, &here),
        Err(_) => false,
    };
    let is_kept = match rt.symlink_metadata(names.kept.as_str()) {
        Ok(kept) => is_same(there, &kept),
        Err(_) => false,
    };
    is_image || is_kept
}

// The file that is kept already. While it is claimed here no other process gets it for itself. `None` where there is none, where it is the old
// image's own, and where that can't be known.
fn last_kept<F, R>(rt: &R, kept: &str, old: &F) -> io::Result<Option<F>>
where
    F: BackingFile + OpenFile + Drop,
    R: Files<File = F>,
{
    let (Ok(there), Ok(here)) = (rt.symlink_metadata(kept), old.metadata()) else {
        return Ok(None);
    };
    if !there.is_file() || is_same(&there, &here) {
        return Ok(None);
    }
    let Ok(file) = fs::open(rt, kept) else {
        return Ok(None);
    };
    match file.claim(Claim::Shared) {
        Ok(true) => Ok(Some(file)),
        Ok(false) => {
            drop(file);
            Err(io::Error::from_raw_os_error(KEPT_IN_USE))
        }
        Err(_) => {
            drop(file);
            Ok(None)
        }
    }
}

// Lets a second name lead to the old image, in place of what it leads to: it takes another name first, so that what is kept already is
// lost only where the old image is kept in its place.
fn link_over<R: Files>(rt: &R, names: &Names) -> io::Result<()> {
    let passing = names.passing.as_str();
    rt.hard_link(names.target.as_str(), passing)?;
    let moved = rt.rename(passing, names.kept.as_str());
    // It is there still where it wasn't moved, or where both names lead to one file already.
    let _ = rt.remove_file(passing);
    moved
}
