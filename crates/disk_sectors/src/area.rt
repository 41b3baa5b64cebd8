//! An area: as many sectors as a disk has, one after the other.
ghost use Rattle.std.specs.Prelude.{◌≡◌, ◌+◌, ◌<◌, ◌≤◌, [], length, OnOk};
ghost use Rattle.disk_sectors.specs.Places.{Matches};
ghost use Rattle.disk_sectors.specs.Size.{bytes_in, place_of, sector};
ghost use Rattle.disk_sectors.specs.Frames.{WritesArea, WritesSector};
ghost use Rattle.disk_sectors.specs.Areas.{EachHas, IsFilled, SectorHas};

use crate::access::{put_sector, settle};
use crate::marks::Marks;
use crate::sectors::Sectors;
use crate::size::SectorSize;
use block_disk::Fault;

/// Brings an area up to the image, durably: its marked sectors are written, and no longer marked then.
pub(crate) fn fill_area<S: Sectors>(
    sectors: &mut S,
    size: SectorSize,
    first: u64,
    marks: &mut Marks,
    image: &[u8],
) -> Result<(), Fault>
    requires size { S.of_size sectors.old ≡ size }
    requires long { length image.now ≡ place_of size (length marks.old) }
    requires fits { place_of size (first + length marks.old) ≤ length
        (S.device sectors.old).now.bytes }
    requires matches { Matches size first marks.old image.now (S.device sectors.old).now.bytes }
    ensures count { length marks.new ≡ length marks.old }
    ensures whole { OnOk result (IsFilled size first marks.old image.now (S.device sectors.new)) }
    ensures durable { OnOk result ((S.device sectors.new).now.pending ≡ []) }
    ensures matches { Matches size first marks.new image.now (S.device sectors.new).now.bytes }
    ensures writes_only { WritesArea S.device S.of_size size first marks.old sectors.old sectors.new }
{
    write_area(sectors, size, first, marks, image)?;
    // The area has to be durable before the gate shows it, and its marks stay until it is.
    settle(sectors)?;
    marks.clear();
    Ok(())
}

// Writes the marked sectors of an area.
fn write_area<S: Sectors>(
    sectors: &mut S,
    size: SectorSize,
    first: u64,
    marks: &Marks,
    image: &[u8],
) -> Result<(), Fault>
    requires size { S.of_size sectors.old ≡ size }
    requires long { length image.now ≡ place_of size (length marks.now) }
    requires fits { place_of size (first + length marks.now) ≤ length
        (S.device sectors.old).now.bytes }
    requires matches { Matches size first marks.now image.now (S.device sectors.old).now.bytes }
    ensures all { OnOk result (EachHas size first marks.now image.now (S.device sectors.new)) }
    ensures matches { Matches size first marks.now image.now (S.device sectors.new).now.bytes }
    ensures writes_only { WritesArea S.device S.of_size size first marks.now sectors.old sectors.new }
{
    for i in 0..marks.count() {
        write_marked(sectors, size, first, i, marks, image)?;
    }
    Ok(())
}

// Writes a sector of an area, if it is marked.
fn write_marked<S: Sectors>(
    sectors: &mut S,
    size: SectorSize,
    first: u64,
    i: usize,
    marks: &Marks,
    image: &[u8],
) -> Result<(), Fault>
    requires size { S.of_size sectors.old ≡ size }
    requires within { i < length marks.now }
    requires long { length image.now ≡ place_of size (length marks.now) }
    requires fits { place_of size (first + length marks.now) ≤ length
        (S.device sectors.old).now.bytes }
    requires matches { Matches size first marks.now image.now (S.device sectors.old).now.bytes }
    ensures this { OnOk result (SectorHas size first i image.now (S.device sectors.new)) }
    ensures matches { Matches size first marks.now image.now (S.device sectors.new).now.bytes }
    ensures writes_only { WritesSector S.device S.of_size size (first + i) sectors.old sectors.new }
{
    let is_marked = marks.has(i);
    if !is_marked {
        return Ok(());
    }
    let _sectors = sectors.count();
    let number = first + i as u64;
    let bytes = sector_at(image, size, i);
    put_sector(sectors, size, number, bytes)
}

// The bytes of an image's sector.
fn sector_at(image: &[u8], size: SectorSize, i: usize) -> &[u8]
    requires { place_of size i + bytes_in size ≤ length image.now }
    ensures bytes { result.now ≡ sector size i image.now }
    ensures whole { length result.now ≡ bytes_in size }
{
    let len = size.bytes();
    &image[i * len..i * len + len]
}
