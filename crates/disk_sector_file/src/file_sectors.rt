//! The sectors of a file.
ghost use Rattle.std.specs.Prelude.{◌≡◌, ◌+◌, ◌^◌, ◌<◌, ◌≤◌, length, option_map, IfOk, IfSome, IsErrOf, OnErr, OnOk};
ghost use Rattle.block_disk.specs.Device.{SameMoments, synced};
ghost use Rattle.disk_file.specs.Backing.{ReadsForGood, Unsettled, settled};
ghost use Rattle.disk_sectors.specs.Size.{bytes_in, place_of, sector};
ghost use Rattle.disk_sectors.specs.declared.error.SectorError.TheVariants.{Unreadable};
ghost use Rattle.disk_sector_file.specs.FileSectors.{PutsInFile, PutsOnDevice, TearsInFile, TearsOnDevice};
ghost use Rattle.disk_sectors.specs.Access.{HasSector, Loses};

use block_disk::{Fault, Trace, copy_out};
use disk_file::{BackingFile, Claim, fill};
use disk_sectors::{PlacesError, SectorError, SectorSize, Sectors};
use std::alloc::Global;
use std::io;
use std::marker::Model;

/// The sectors of a file, for a disk in two places on it.
///
/// Each call on the file is one of whole sectors. When they are opened, the gate is read, and the area whose turn it is, whole; other
/// sectors are never read, since a crash may have left them so that they can't be. What was read is kept until a sector is written, so that a
/// file that gives other bytes later makes no wrong answer.
///
/// What they may claim of a crash rests on the file: that `fdatasync` makes durable what was written before it, and that a write
/// leaves the sectors alone that it isn't one of. What is found rests on more: no write and no sync of another open file has failed since the
/// file system was mounted. After one, reads may return cached data that never reached the device. Nothing is written back (DECISIONS.md).
#[derive(Drop)]
pub struct FileSectors<F: BackingFile + Drop> {
    file: F,
    size: SectorSize,
    count: u64,
    // The bytes, of which those of the gate and of the area are read; none once a sector was written.
    known: Option<Vec<u8>>,
    // The number of the area's first sector, and how many it has.
    first: u64,
    area: u64,
    trace: Trace,
}

impl<F: BackingFile + Drop> Model for FileSectors<F> {
    ghost use Rattle.std.specs.Prelude.{option_map};
    ghost use Rattle.disk_sector_file.specs.FileSectors.{AreSectors, OnFile};

    ghost Value = { OnFile };

    ghost view = { λ s. record { device = s.trace.past.device; size = s.size; file = F.holds s.file } };

    ghost invariant = { λ s. AreSectors s.size s.count (option_map (λ known. known.items) s.known) s.trace.past.device };
}

impl<F: BackingFile + Drop> FileSectors<F> {
    /// The sectors of this file on which a disk of so many lies in two places. The file is synced first.
    ///
    /// `Fault`, `TooSmall` and `NoMemory`, as they come. A gate that can't be read is none: then it is the first area's turn.
    pub fn found(
        alloc: Global,
        mut file: F,
        size: SectorSize,
        count: usize,
    ) -> Result<FileSectors<F>, PlacesError>
        ensures size { IfOk result (λ sectors. sectors.size ≡ size) }
        // Opening the sectors of a file settles the file, and leaves its bytes as they are.
        ensures file { IfOk result (λ sectors. sectors.file ≡ option_map settled (F.holds file)) }
    {
        if file.settle().is_err() {
            return Err(PlacesError::Fault);
        }
        let Ok(len) = file.len() else {
            return Err(PlacesError::Fault);
        };
        let Some(all) = sectors_for(count, len, size) else {
            return Err(PlacesError::TooSmall);
        };
        let Some(mut bytes) = zeros(alloc, size, all) else {
            return Err(PlacesError::NoMemory);
        };
        let first = match read_areas(&mut file, size, count, &mut bytes) {
            Ok(first) => first,
            Err(_) => return Err(PlacesError::Fault),
        };
        let trace = Trace::of(&bytes);
        Ok(FileSectors {
            file,
            size,
            count: all as u64,
            known: Some(bytes),
            first: first as u64,
            area: count as u64,
            trace,
        })
    }

    /// Sectors of zeros in this file, whatever it had, for a disk of so many in two places.
    ///
    /// `TooSmall` is tried first, and says that no file has so many; then `NoMemory`, then `Fault`.
    pub fn blank(
        alloc: Global,
        mut file: F,
        size: SectorSize,
        count: usize,
    ) -> Result<FileSectors<F>, PlacesError>
        ensures size { IfOk result (λ sectors. sectors.size ≡ size) }
        // New sectors are what the file reads, and has read since it was synced.
        ensures file { IfOk result (λ sectors. ReadsForGood sectors.device.now.bytes sectors.file) }
    {
        let Some(all) = sectors_for(count, i64::MAX as u64, size) else {
            return Err(PlacesError::TooSmall);
        };
        let Some(bytes) = zeros(alloc, size, all) else {
            return Err(PlacesError::NoMemory);
        };
        if fill(&mut file, &bytes).is_err() {
            return Err(PlacesError::Fault);
        }
        let trace = Trace::of(&bytes);
        Ok(FileSectors {
            file,
            size,
            count: all as u64,
            known: None,
            first: 0,
            area: 0,
            trace,
        })
    }

    /// Claims the file.
    pub fn claim(&self, claim: Claim) -> io::Result<bool> {
        self.file.claim(claim)
    }
}

// So many sectors of zeros; none where there is no memory.
fn zeros(alloc: Global, size: SectorSize, count: usize) -> Option<Vec<u8>>
    requires { place_of size count < 2 ^ 64 }
    ensures { IfSome result (λ bytes. length bytes.items ≡ place_of size count) }
{
    vec![in alloc; 0u8; count * size.bytes()].ok()
}

// How many sectors a disk of so many takes in two places, where so many bytes have as many.
fn sectors_for(count: usize, len: u64, size: SectorSize) -> Option<usize>
    ensures is { IfSome result (λ all. all ≡ count + count + 2) }
    ensures fits { IfSome result (λ all. place_of size all ≤ len) }
{
    let most = len / size.bytes() as u64;
    if most < 2 {
        return None;
    }
    let room = (most - 2) / 2;
    let wanted = count as u64;
    if room < wanted {
        return None;
    }
    Some(count + count + 2)
}

// Reads the gate and the area whose turn it is, and gives the number of the area's first sector.
fn read_areas<F: BackingFile>(
    file: &mut F,
    size: SectorSize,
    count: usize,
    bytes: &mut [u8],
) -> io::Result<usize>
    requires { length bytes.old ≡ place_of size (count + count + 2) }
    ensures long { length bytes.new ≡ length bytes.old }
    ensures same { F.holds file.new ≡ F.holds file.old }
{
    let len = size.bytes();
    let turn = read_gate(file, size, &mut bytes[len..len + len]);
    let first = if turn { count + 2 } else { 2 };
    let at = first * len;
    file.read_from(at as u64, &mut bytes[at..at + count * len])?;
    Ok(first)
}

// Reads the gate: whether it is the second area's turn.
fn read_gate<F: BackingFile>(file: &mut F, size: SectorSize, gate: &mut [u8]) -> bool
    requires { length gate.old ≡ bytes_in size }
    ensures long { length gate.new ≡ length gate.old }
    ensures same { F.holds file.new ≡ F.holds file.old }
{
    if file.read_from(size.bytes() as u64, gate).is_err() {
        gate.fill(0);
    }
    gate[0] == 1
}

// Whether this is the gate, or one of so many sectors from the first on.
fn is_among(number: u64, first: u64, count: u64) -> bool {
    number == 1 || (number >= first && number - first < count)
}

impl<F: BackingFile + Drop> Sectors for FileSectors<F> {
    ghost device = { λ s. s.device };

    ghost of_size = { λ s. s.size };

    fn sector_size(&self) -> SectorSize {
        self.size
    }

    fn count(&self) -> u64 {
        self.count
    }

    /// Reads what was read as the file was opened, and leaves the file alone.
    fn read_sector(&mut self, number: u64, out: &mut [u8]) -> Result<(), SectorError>
        requires whole { length out.old ≡ bytes_in self.old.size }
        requires fits { HasSector self.old.size number self.old.device }
        ensures ok { OnOk result (out.new ≡ sector self.old.size number self.old.device.now.bytes) }
        ensures unreadable { IsErrOf result Unreadable → Loses self.old.size number self.old.device }
        ensures same { SameMoments self.old.device self.new.device }
        ensures size { self.new.size ≡ self.old.size }
        // Reading a sector leaves the file as it is.
        ensures file { self.new.file ≡ self.old.file }
    {
        if !is_among(number, self.first, self.area) {
            return Err(SectorError::Fault);
        }
        match &self.known {
            Some(bytes) => {
                copy_out(bytes, number * self.size.bytes() as u64, out);
                Ok(())
            }
            None => Err(SectorError::Fault),
        }
    }

    /// Writes the file there, and no more of it.
    fn write_sector(&mut self, number: u64, bytes: &[u8]) -> Result<(), Fault>
        requires whole { length bytes.now ≡ bytes_in self.old.size }
        requires fits { HasSector self.old.size number self.old.device }
        ensures ok { OnOk result (PutsOnDevice number bytes.now self.old self.new) }
        ensures fault { OnErr result (TearsOnDevice number bytes.now self.old self.new) }
        ensures size { self.new.size ≡ self.old.size }
        // A sector that is written is written in the file, and nothing else is.
        ensures file { OnOk result (PutsInFile number bytes.now self.old self.new) }
        // A failed write of a sector changes no byte of the file outside the sector.
        ensures torn { OnErr result (TearsInFile number bytes.now self.old self.new) }
    {
        let at = number * self.size.bytes() as u64;
        let answer = self.file.write_to(at, bytes);
        self.known = None;
        // Where it has failed, it may have been begun.
        self.trace.write(at, bytes);
        match answer {
            Ok(()) => Ok(()),
            Err(_) => Err(Fault),
        }
    }

    /// Syncs the file.
    fn flush(&mut self) -> Result<(), Fault>
        ensures ok { OnOk result (self.new.device ≡ synced self.old.device) }
        ensures fault { OnErr result (SameMoments self.old.device self.new.device) }
        ensures size { self.new.size ≡ self.old.size }
        // A flush that succeeds has settled the file.
        ensures file { OnOk result (self.new.file ≡ option_map settled self.old.file) }
        // A flush that fails leaves what the file reads.
        ensures unsettled { OnErr result (Unsettled self.old.file self.new.file) }
    {
        if self.file.settle().is_err() {
            return Err(Fault);
        }
        self.trace.sync();
        Ok(())
    }
}
