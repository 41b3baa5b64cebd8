//! A disk in two places on a device of sectors.
ghost use Rattle.std.specs.Prelude.{◌≡◌, ◌+◌, ◌*◌, ◌<◌, ◌≤◌, IfErr, IfOk, IsErrOf, IsOk, OnErr, OnOk, [], length};
ghost use Rattle.block_disk.specs.Bytes.{part};
ghost use Rattle.block_disk.specs.Device.{SameMoments, new_device, synced, unit_ranges, written, written_units};
ghost use Rattle.block_disk.specs.Images.{Always, LeavesOnly};
ghost use Rattle.block_disk.specs.Since.{CountsOneMore, HasFailedSince, LeavesBut};
ghost use Rattle.block_disk.specs.declared.error.DiskError.TheVariants.{Fault, OutOfRange};
ghost use Rattle.disk_sectors.specs.Places.{IsAsFound, IsKept};
ghost use Rattle.disk_sectors.specs.Opened.{LiesOn};
ghost use Rattle.disk_sectors.specs.Turns.{HasRoom, IsShownBy, KeepsBeyond, KeepsOthers, LacksRoom, LeavesBeyond, ShowsDisk};
ghost use Rattle.disk_sectors.specs.Refusals.{IsNotTooSmall, IsSameOrTornBy, IsTooSmall, IsUntouched, RefusesRead, RefusesWrite};
ghost use Rattle.disk_sectors.specs.Size.{zeros_in};
ghost use Rattle.disk_sectors.specs.Labels.{HasLabel};

use crate::error::PlacesError;
use crate::gate::Gate;
use crate::marks::Marks;
use crate::opening::{Found, find_places, make_places};
use crate::places::{sync_places, write_image};
use crate::sectors::Sectors;
use crate::size::SectorSize;
use block_disk::{Disk, DiskError, Trace, copy_out, fail, lies_within};
use std::alloc::Global;
use std::marker::Model;

/// A disk whose bytes lie in two areas of a device of sectors by turns, so that no sector is written that a crash has to leave:
/// it is right too where a sector that was being written holds any bytes after a crash, or can't be read. No number and no sum
/// tells which area is whole, but the order of flushes alone (docs/FORMAT.md, "Sectors in two places").
///
/// Its bytes are in memory, and reach the device at each sync, by two flushes, and by one more before them where the last sync failed and
/// left the gate so that it may say either. A `Fault` is one of the device in a sync; the next one writes again what was written since the
/// last that succeeded.
#[derive(Drop)]
pub struct TwoPlaces<S: Sectors + Drop> {
    sectors: S,
    size: SectorSize,
    image: Vec<u8>,
    // Of each sector: whether the area whose turn it is may hold something else.
    fresh: Marks,
    // The same of the other area.
    stale: Marks,
    gate: Gate,
    failures: u64,
    trace: Trace,
}

impl<S: Sectors + Drop> Model for TwoPlaces<S> {
    ghost use Rattle.std.specs.Prelude.{◌≡◌, length};
    ghost use Rattle.disk_sectors.specs.Disks.{Layered};
    ghost use Rattle.disk_sectors.specs.Places.{IsKept};
    ghost use Rattle.block_disk.specs.Traced.{failing};

    ghost Value = { Layered };

    ghost view = { λ d. record { device = failing d.failures d.trace.past.device; sectors = S.device d.sectors; size = d.size; count = length d.fresh } };

    ghost invariant = { λ d. (S.of_size d.sectors ≡ d.size) × IsKept d.size d.gate.is_firm d.gate.turn d.fresh d.stale d.image.items d.trace.past.device.now (S.device d.sectors) };
}

impl<S: Sectors + Drop> TwoPlaces<S> {
    /// The disk of so many sectors that these stand for, whatever label they have. They are flushed first, so that what is read is
    /// what a crash leaves.
    ///
    /// Refused, with the sectors, of which none was written:
    /// - `TooSmall` exactly where there are fewer than the label, the gate and two areas take;
    /// - then `Fault` and `NoMemory`, as they come.
    pub fn open(
        alloc: Global,
        mut sectors: S,
        count: usize,
    ) -> Result<TwoPlaces<S>, (S, PlacesError)>
        // An opened disk is what the device stands for.
        ensures ok { IfOk result (λ disk. IsShownBy S.device S.of_size count sectors disk.device) }
        ensures size { IfOk result (λ disk. (disk.size ≡ S.of_size sectors)
            × (disk.count ≡ count)) }
        // An opening flushes the device, and writes none of its sectors.
        ensures found { IfOk result (λ disk. IsAsFound (S.device sectors) disk.sectors) }
        // A device with fewer sectors than the label, the gate and two areas take is refused as too small, before all
        // else.
        ensures too_small { LacksRoom (S.of_size sectors) count (S.device sectors) → IsTooSmall result }
        // A device with room for the label, the gate and two areas isn't refused as too small.
        ensures room { HasRoom (S.of_size sectors) count (S.device sectors) → IsNotTooSmall result }
        // A refused opening has written none of the sectors, and at most flushed them.
        ensures err { IfErr result (λ back. IsAsFound (S.device sectors) (S.device back.0)) }
        // A refusal gives the sectors back, of the same size.
        ensures back { IfErr result (λ back. S.of_size back.0 ≡ S.of_size sectors) }
    {
        let size = sectors.sector_size();
        match find_places(alloc, &mut sectors, size, count) {
            Ok(found) => Ok(TwoPlaces::holding(sectors, size, found)),
            Err(why) => Err((sectors, why)),
        }
    }

    /// A disk of so many sectors of zeros, durably; the device begins with its label then, which is written last.
    ///
    /// Refused, with the sectors:
    /// - `TooSmall` exactly where there are fewer than the label, the gate and two areas take;
    /// - then `NoMemory`. After either the device is as it was;
    /// - `Fault`: any bytes may stand in the sectors that the disk was to have, and no others have changed.
    pub fn create(
        alloc: Global,
        mut sectors: S,
        count: usize,
    ) -> Result<TwoPlaces<S>, (S, PlacesError)>
        // A new disk has zeros.
        ensures ok { IfOk result (λ disk. disk.device ≡ new_device (zeros_in (S.of_size sectors) count)) }
        ensures size { IfOk result (λ disk. (disk.size ≡ S.of_size sectors)
            × (disk.count ≡ count)) }
        // A new disk begins with the label that tells the size and the number of its sectors.
        ensures labelled { IfOk result (λ disk. HasLabel (S.of_size sectors) count disk.sectors) }
        // A new disk has nothing pending on its device.
        ensures durable { IfOk result (λ disk. disk.sectors.now.pending ≡ []) }
        // A device with fewer sectors than the label, the gate and two areas take is refused as too small, before all
        // else.
        ensures too_small { LacksRoom (S.of_size sectors) count (S.device sectors) → IsTooSmall result }
        // A device with room for the label, the gate and two areas isn't refused as too small.
        ensures room { HasRoom (S.of_size sectors) count (S.device sectors) → IsNotTooSmall result }
        // A refused making has changed nothing, but where it answers `Fault`.
        ensures untouched { IfErr result (λ back. IsUntouched S.device back.1 sectors back.0) }
        // A refused making has changed no byte after those that the disk was to have.
        ensures beyond { IfErr result (λ back. KeepsOthers S.device S.of_size count sectors back.0) }
        // A refusal gives the sectors back, of the same size.
        ensures back { IfErr result (λ back. S.of_size back.0 ≡ S.of_size sectors) }
    {
        let size = sectors.sector_size();
        match make_places(alloc, &mut sectors, size, count) {
            Ok(found) => Ok(TwoPlaces::holding(sectors, size, found)),
            Err(why) => Err((sectors, why)),
        }
    }

    // The disk of these bytes, which lie on the device as is said.
    fn holding(sectors: S, size: SectorSize, found: Found) -> TwoPlaces<S>
        requires size { S.of_size sectors ≡ size }
        requires kept { LiesOn size found (S.device sectors) }
        ensures device { result.device ≡ new_device found.image.items }
        ensures sectors { result.sectors ≡ S.device sectors }
        ensures size { (result.size ≡ size) × (result.count ≡ length found.fresh) }
    {
        let trace = Trace::of(&found.image);
        TwoPlaces {
            sectors,
            size,
            image: found.image,
            fresh: found.fresh,
            stale: found.stale,
            gate: found.gate,
            failures: 0,
            trace,
        }
    }

    /// The sectors that it lies on.
    pub fn sectors(&self) -> &S
        ensures { S.device result.now ≡ self.now.sectors }
    {
        &self.sectors
    }

    /// Whatever a crash may leave of the device now stands for what it may leave of the disk, and has the same first sector.
    pub fn possible_law(&self)
        // Whatever a crash may leave of the device now stands for what a crash may leave of the disk now, under the
        // device's own label.
        ensures { Always self.now.sectors (ShowsDisk self.now) }
    {
        let _ = &self.image;
    }
}

impl<S: Sectors + Drop> Disk for TwoPlaces<S> {
    ghost device = { λ d. d.device };

    fn size(&self) -> u64 {
        self.image.len() as u64
    }

    /// Reads the memory, and never answers `Fault`.
    fn read_at(&mut self, at: u64, out: &mut [u8]) -> Result<(), DiskError>
        ensures in_range { OnOk result (at + length out.old ≤ length self.old.device.now.bytes) }
        ensures ok { OnOk result (out.new ≡ part at (length out.old) self.old.device.now.bytes) }
        ensures same { OnOk result (self.new.device ≡ self.old.device) }
        ensures out_of_range { RefusesRead at out.old out.new self.old.device self.new.device result }
        ensures fault { IsErrOf result Fault → SameMoments self.old.device self.new.device }
        ensures cause { IsErrOf result Fault → HasFailedSince self.old.device self.new.device }
        ensures counted { IsErrOf result Fault → CountsOneMore self.old.device self.new.device }
        ensures no_fault { ¬ IsErrOf result Fault }
        ensures sectors { self.new.sectors ≡ self.old.sectors }
        ensures count { (self.new.size ≡ self.old.size) × (self.new.count ≡ self.old.count) }
    {
        if !lies_within(at, out.len(), self.image.len()) {
            return Err(DiskError::OutOfRange);
        }
        copy_out(&self.image, at, out);
        Ok(())
    }

    /// Writes the memory, and leaves the device as it is. It never answers `Fault`.
    fn write_at(&mut self, at: u64, bytes: &[u8]) -> Result<(), DiskError>
        ensures in_range { OnOk result (at + length bytes.now ≤ length self.old.device.now.bytes) }
        ensures ok { OnOk result (self.new.device ≡ written at bytes.now self.old.device) }
        ensures out_of_range { RefusesWrite at bytes.now self.old.device self.new.device result }
        ensures fault { IsErrOf result Fault → IsSameOrTornBy at bytes.now self.old.device self.new.device }
        ensures cause { IsErrOf result Fault → HasFailedSince self.old.device self.new.device }
        ensures counted { IsErrOf result Fault → CountsOneMore self.old.device self.new.device }
        // A write never answers a fault.
        ensures no_fault { ¬ IsErrOf result Fault }
        // A write leaves the device of sectors as it is.
        ensures sectors { self.new.sectors ≡ self.old.sectors }
        ensures count { (self.new.size ≡ self.old.size) × (self.new.count ≡ self.old.count) }
    {
        if !lies_within(at, bytes.len(), self.image.len()) {
            return Err(DiskError::OutOfRange);
        }
        write_image(
            &mut self.fresh,
            &mut self.stale,
            self.size,
            &mut self.image,
            at,
            bytes,
        );
        self.trace.write(at, bytes);
        Ok(())
    }

    /// Writes the memory, a unit after the other, and leaves the device as it is. It never fails.
    fn write_units(&mut self, at: u64, units: &[u8], count: usize) -> Result<(), block_disk::Fault>
        requires some { 0 < count }
        requires whole { length units.now ≡ count * 16 }
        requires fits { at + length units.now ≤ length self.old.device.now.bytes }
        ensures ok { OnOk result (self.new.device
            ≡ written_units count at units.now self.old.device) }
        ensures any_moment { LeavesBut (unit_ranges count at) self.old.device self.new.device }
        ensures cause { OnErr result (HasFailedSince self.old.device self.new.device) }
        ensures counted { OnErr result (CountsOneMore self.old.device self.new.device) }
        // A write never answers a fault.
        ensures no_fault { IsOk result }
        // A write leaves the device of sectors as it is.
        ensures sectors { self.new.sectors ≡ self.old.sectors }
        ensures count { (self.new.size ≡ self.old.size) × (self.new.count ≡ self.old.count) }
    {
        let _size = self.size();
        for i in 0..count {
            let from = i * 16;
            match self.write_at(at + from as u64, &units[from..from + 16]) {
                Ok(()) => {}
                Err(_) => return Err(block_disk::Fault),
            }
        }
        Ok(())
    }

    /// Writes to the area whose turn it isn't what it lacks, flushes, turns the gate, and flushes. A crash at any moment of it leaves what
    /// stands for what a crash of the disk may leave that comes before the sync. No sector behind the areas is written.
    fn sync(&mut self) -> Result<(), DiskError>
        ensures ok { OnOk result (self.new.device ≡ synced self.old.device) }
        ensures in_range { ¬ IsErrOf result OutOfRange }
        ensures fault { IsErrOf result Fault → SameMoments self.old.device self.new.device }
        ensures cause { IsErrOf result Fault → HasFailedSince self.old.device self.new.device }
        ensures counted { IsErrOf result Fault → CountsOneMore self.old.device self.new.device }
        // Whatever a crash leaves at any moment of a sync stands for what a crash of the disk might have left before
        // the sync, whatever the sync answers.
        ensures any_moment { LeavesOnly self.old.sectors self.new.sectors (ShowsDisk self.old) }
        // Whatever a crash leaves at any moment of a sync differs from what one before might have left in the label,
        // the gate and the areas alone.
        ensures within { LeavesBeyond self.old.size self.old.count self.old.sectors self.new.sectors }
        // A sync writes no sector after the areas.
        ensures beyond { KeepsBeyond self.old.size self.old.count self.old.sectors self.new.sectors }
        ensures count { (self.new.size ≡ self.old.size) × (self.new.count ≡ self.old.count) }
    {
        match sync_places(
            &mut self.sectors,
            self.size,
            &mut self.gate,
            &mut self.fresh,
            &mut self.stale,
            &self.image,
        ) {
            Ok(()) => {}
            Err(_) => return Err(fail(&mut self.failures)),
        }
        self.trace.sync();
        Ok(())
    }

    fn failures(&self) -> u64 {
        self.failures
    }
}
