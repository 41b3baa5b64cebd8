//! The file that a disk writes to.
ghost use Rattle.std.specs.Prelude.{◌≡◌, [], ◌∷◌, Option, None, length, OnOk, OnErr, IfOk, IfSome, option_map};
ghost use Rattle.disk_file.specs.Backing.{GivesPart, HasWrittenBack, Held, MayLose, TornFile, byte_at, Unsettled, emptied, put_at, settled};

use std::fs::{File, TryLockError};
use std::io;
use std::io::{Read, Seek, SeekFrom, Write};
use std::os::unix::fs::FileTypeExt;

/// How a file is claimed for one of its opens.
#[derive(Clone, Copy, Debug, PartialEq, Eq)]
pub enum Claim {
    /// No other open has a claim.
    Alone,
    /// Other opens may share it, and none has it alone.
    Shared,
}

/// A file that a disk keeps its bytes in. Places and lengths count bytes, from 0.
///
/// What a file of the system holds is not known: of a [`File`] the contract claims nothing. A file in memory can say
/// what it holds, and then a [`BufferedDisk`](crate::BufferedDisk) over it says so too.
///
/// What a file reads needn't be what its device has, where another process has had the file before: after a sync that failed the system may take
/// bytes for written that never were. They reach the device where they are written again and synced.
pub trait BackingFile {
    /// What the file holds, where that is known.
    ghost holds: { Self → Option Held } = { λ _. None };

    /// How many bytes it has.
    fn len(&self) -> io::Result<u64>
        ensures reads { IfOk result (λ n. IfSome (holds self.now) (λ h. n ≡ length h.reads)) }
        // A sync that succeeds makes a file's length durable, so its device has as many bytes then.
        ensures kept { IfOk result (λ n. IfSome (holds self.now) (λ h. n ≡ length h.kept.bytes)) };

    /// Takes all its bytes away.
    fn empty(&mut self) -> io::Result<()>
        ensures { OnOk result (holds self.new ≡ option_map emptied (holds self.old)) };

    /// Reads the bytes from `at` on into `out`, whole; there is an error where the file ends before.
    fn read_from(&mut self, at: u64, out: &mut [u8]) -> io::Result<()>
        ensures ok { OnOk result (GivesPart at (length out.old) out.new (holds self.old)) }
        ensures same { holds self.new ≡ holds self.old };

    /// Writes all these bytes at `at`. After an error there may be any bytes in their range.
    fn write_to(&mut self, at: u64, bytes: &[u8]) -> io::Result<()>
        ensures ok { OnOk result (holds self.new
            ≡ option_map (put_at at bytes.now) (holds self.old)) }
        ensures err { OnErr result (TornFile at (length bytes.now) (holds self.old)
            (holds self.new)) };

    /// Writes the byte at this place again, with the value that the file reads there. After an error the file may read any byte there.
    ///
    /// The premise on which openings rest is stated here, and of this call alone: a byte that the device has isn't lost where it is written
    /// again with its own value (docs/FORMAT.md, "What the device keeps").
    fn write_back(&mut self, at: u64) -> io::Result<()>
        ensures ok { OnOk result (HasWrittenBack at (holds self.old) (holds self.new)) }
        ensures err { OnErr result (MayLose (byte_at at ∷ []) (holds self.old) (holds self.new)) };

    /// Makes what was written, and the file's length, durable. What was only found isn't written by it.
    fn settle(&mut self) -> io::Result<()>
        ensures ok { OnOk result (holds self.new ≡ option_map settled (holds self.old)) }
        ensures err { OnErr result (Unsettled (holds self.old) (holds self.new)) };

    /// Claims the file for this open, until it is closed, and tells whether it is claimed; another claim that it had is given back.
    /// Nobody else opens a file that isn't the system's, which is what this body says.
    fn claim(&self, _claim: Claim) -> io::Result<bool> {
        Ok(true)
    }
}

/// A file of the system. An interrupted call is made again, and a short one goes on where it ended.
impl BackingFile for File {
    fn len(&self) -> io::Result<u64> {
        let metadata = self.metadata()?;
        if metadata.file_type().is_block_device() {
            let mut device = self;
            return end_of(&mut device);
        }
        Ok(metadata.len())
    }

    fn empty(&mut self) -> io::Result<()> {
        self.set_len(0)
    }

    fn read_from(&mut self, at: u64, out: &mut [u8]) -> io::Result<()> {
        read_there(self, at, out)
    }

    fn write_to(&mut self, at: u64, bytes: &[u8]) -> io::Result<()> {
        write_there(self, at, bytes)
    }

    fn write_back(&mut self, at: u64) -> io::Result<()> {
        let mut byte = [0];
        read_there(self, at, &mut byte)?;
        write_there(self, at, &byte)
    }

    fn settle(&mut self) -> io::Result<()> {
        self.sync_data()
    }

    // By an advisory lock (`flock`): programs that don't ask for one aren't kept out.
    fn claim(&self, claim: Claim) -> io::Result<bool> {
        let answer = match claim {
            Claim::Alone => self.try_lock(),
            Claim::Shared => self.try_lock_shared(),
        };
        match answer {
            Ok(()) => Ok(true),
            Err(TryLockError::WouldBlock) => Ok(false),
            Err(TryLockError::Error(error)) => Err(error),
        }
    }
}

// Where what can seek ends, as of a block device, whose metadata tells no length. It stays at its place.
fn end_of<F: Seek>(file: &mut F) -> io::Result<u64> {
    let place = file.stream_position()?;
    let end = file.seek(SeekFrom::End(0))?;
    file.seek(SeekFrom::Start(place))?;
    Ok(end)
}

/// Reads at a place of what can seek, all bytes of `out`, for a [`BackingFile`]. An interrupted call is made again, and a
/// short one goes on where it ended.
pub fn read_there<F: Read + Seek>(file: &mut F, at: u64, out: &mut [u8]) -> io::Result<()> {
    file.seek(SeekFrom::Start(at))?;
    file.read_exact(out)
}

/// Writes at a place of what can seek, all of the bytes, for a [`BackingFile`]. An interrupted call is made again, and a
/// short one goes on where it ended.
pub fn write_there<F: Write + Seek>(file: &mut F, at: u64, bytes: &[u8]) -> io::Result<()> {
    file.seek(SeekFrom::Start(at))?;
    file.write_all(bytes)
}
