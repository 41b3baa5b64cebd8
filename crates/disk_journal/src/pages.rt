//! The pages of a journaled device: each is written whole, by one call.
ghost use Rattle.std.specs.Prelude.{◌≡◌, ◌+◌, ◌*◌, ◌/◌, ◌^◌, ◌<◌, ◌≤◌, ◌∷◌, All, List, ℕ, length, take, OnErr, OnOk};
ghost use Rattle.block_disk.specs.Bytes.{part, spliced};
ghost use Rattle.block_disk.specs.Device.{SameMoments, synced};
ghost use Rattle.block_disk.specs.Since.{HasFailedSince};
ghost use Rattle.atomic_sectors.specs.Left.{MakesSyncs, Reads};
ghost use Rattle.journal_batches.specs.Areas.{half_at, home_of, image_at, image_bytes, room_of, with_half, with_home};
ghost use Rattle.journal_batches.specs.Entries.{AreOf, replayed};
ghost use Rattle.journal_batches.specs.Spelled.{CanSpell, pages_for, spelled};
ghost use Rattle.disk_journal.specs.Steps.{ArePending, AreWordPlaces, BringsHome, HasHome, HasInHalf, IsPending, StaysBetween};

use atomic_sectors::UntornDisk;
use block_disk::{Disk, Fault, overwrite, read_within};
use journal_batches::{Areas, Entry, pages_of, spell_page};

/// The bytes of a page.
pub(crate) const PAGE: usize = 4096;

/// Where a half begins.
pub(crate) fn half_place(areas: Areas, second: bool) -> u64
    requires { room_of areas < 2 ^ 64 }
    ensures { result ≡ half_at areas second }
{
    if second {
        (areas.half as u64 + 1) * PAGE as u64
    } else {
        PAGE as u64
    }
}

/// Makes what was written durable. A fault fixes nothing.
pub(crate) fn flush<D: UntornDisk>(disk: &mut D) -> Result<(), Fault>
    ensures ok { OnOk result (D.device disk.new ≡ synced (D.device disk.old)) }
    ensures err { OnErr result (SameMoments (D.device disk.old) (D.device disk.new)) }
    ensures cause { OnErr result (HasFailedSince (D.device disk.old) (D.device disk.new)) }
{
    match disk.sync() {
        Ok(()) => Ok(()),
        Err(_) => Err(Fault),
    }
}

/// Writes a batch into a half, page by page.
pub(crate) fn write_batch<D: UntornDisk>(
    disk: &mut D,
    areas: Areas,
    second: bool,
    stamp: u64,
    entries: &[Entry],
) -> Result<(), Fault>
    requires room { room_of areas ≤ length (D.device disk.old).now.bytes }
    requires spells { CanSpell areas stamp entries.now }
    ensures ok { OnOk result ((D.device disk.new).now.bytes
        ≡ with_half areas second (spelled stamp entries.now) (D.device disk.old).now.bytes) }
    ensures between { StaysBetween areas (HasInHalf areas second (spelled stamp entries.now)) (D.device disk.old) (D.device disk.new) }
    ensures syncs { MakesSyncs 0 (D.device disk.old) (D.device disk.new) }
    ensures steady { OnOk result ((D.device disk.new).failures ≡ (D.device disk.old).failures) }
    ensures cause { OnErr result (HasFailedSince (D.device disk.old) (D.device disk.new)) }
{
    for page in 0..pages_of(entries.len()) {
        write_page(disk, areas, second, stamp, entries, page)?;
    }
    Ok(())
}

// Writes a page of a batch.
fn write_page<D: UntornDisk>(
    disk: &mut D,
    areas: Areas,
    second: bool,
    stamp: u64,
    entries: &[Entry],
    page: usize,
) -> Result<(), Fault>
    requires room { room_of areas ≤ length (D.device disk.old).now.bytes }
    requires spells { CanSpell areas stamp entries.now }
    requires within { page < pages_for (length entries.now) }
    ensures ok { OnOk result ((D.device disk.new).now.bytes
        ≡ spliced (D.device disk.old).now.bytes (half_at areas second + page * 4096) (part (page * 4096) 4096 (spelled stamp entries.now))) }
    ensures between { StaysBetween areas (HasInHalf areas second (spelled stamp entries.now)) (D.device disk.old) (D.device disk.new) }
    ensures syncs { MakesSyncs 0 (D.device disk.old) (D.device disk.new) }
    ensures steady { OnOk result ((D.device disk.new).failures ≡ (D.device disk.old).failures) }
    ensures cause { OnErr result (HasFailedSince (D.device disk.old) (D.device disk.new)) }
{
    let _size = disk.size();
    let mut bytes = [0u8; PAGE];
    spell_page(stamp, entries, page, &mut bytes);
    disk.write_untorn(half_place(areas, second) + (page * PAGE) as u64, &bytes)
}

/// Writes so many pages from `at` on again, as they read.
pub(crate) fn write_again<D: UntornDisk>(disk: &mut D, at: u64, pages: usize) -> Result<(), Fault>
    requires fits { at + pages * 4096 ≤ length (D.device disk.old).now.bytes }
    ensures reads { Reads (λ bytes. bytes ≡ (D.device disk.old).now.bytes) (D.device disk.old) (D.device disk.new) }
    ensures pending { OnOk result (ArePending at (pages * 4096) (D.device disk.new)) }
    ensures others { OnOk result ((i : ℕ) → IsPending i (D.device disk.old) → IsPending i (D.device disk.new)) }
    ensures syncs { MakesSyncs 0 (D.device disk.old) (D.device disk.new) }
    ensures steady { OnOk result ((D.device disk.new).failures ≡ (D.device disk.old).failures) }
    ensures cause { OnErr result (HasFailedSince (D.device disk.old) (D.device disk.new)) }
{
    let _size = disk.size();
    for page in 0..pages {
        write_page_again(disk, at + (page * PAGE) as u64)?;
    }
    Ok(())
}

// Writes a page again, as it reads.
fn write_page_again<D: UntornDisk>(disk: &mut D, at: u64) -> Result<(), Fault>
    requires fits { at + 4096 ≤ length (D.device disk.old).now.bytes }
    ensures reads { Reads (λ bytes. bytes ≡ (D.device disk.old).now.bytes) (D.device disk.old) (D.device disk.new) }
    ensures pending { OnOk result ((D.device disk.new).now.pending ≡ record { start = at; len = 4096 } ∷ (D.device disk.old).now.pending) }
    ensures syncs { MakesSyncs 0 (D.device disk.old) (D.device disk.new) }
    ensures steady { OnOk result ((D.device disk.new).failures ≡ (D.device disk.old).failures) }
    ensures cause { OnErr result (HasFailedSince (D.device disk.old) (D.device disk.new)) }
{
    let mut bytes = [0u8; PAGE];
    read_within(disk, at, &mut bytes)?;
    disk.write_untorn(at, &bytes)
}

/// Puts the words of these entries, which are in the order of their places, to where the image lies: each page is read, and written once.
pub(crate) fn bring_home<D: UntornDisk>(
    disk: &mut D,
    areas: Areas,
    entries: &[Entry],
) -> Result<(), Fault>
    requires room { room_of areas ≤ length (D.device disk.old).now.bytes }
    requires places { AreWordPlaces entries.now }
    ensures ok { (image : List ℕ) → BringsHome areas image entries.now (D.device disk.old)
        → OnOk result ((D.device disk.new).now.bytes ≡ with_home areas image (D.device disk.old).now.bytes) }
    ensures between { (image : List ℕ) → BringsHome areas image entries.now (D.device disk.old)
        → StaysBetween areas (HasHome areas image) (D.device disk.old) (D.device disk.new) }
    ensures syncs { MakesSyncs 0 (D.device disk.old) (D.device disk.new) }
    ensures steady { OnOk result ((D.device disk.new).failures ≡ (D.device disk.old).failures) }
    ensures cause { OnErr result (HasFailedSince (D.device disk.old) (D.device disk.new)) }
{
    let mut done = 0;
    while done < entries.len() {
        let rest = &entries[done..];
        let (page, count) = first_run(rest);
        bring_page(disk, areas, page, &rest[..count])?;
        done += count;
    }
    Ok(())
}

// The page in which the first entry lies, and how many of the first ones lie there.
fn first_run(entries: &[Entry]) -> (u64, usize)
    requires { 0 < length entries.now }
    ensures some { 0 < result.1 }
    ensures within { result.1 ≤ length entries.now }
    ensures page { All (λ e. e.at / 4096 ≡ result.0) (take result.1 entries.now) }
{
    let page = entries[0].at / PAGE as u64;
    for i in 1..entries.len() {
        if entries[i].at / PAGE as u64 != page {
            return (page, i);
        }
    }
    (page, entries.len())
}

// Puts the words of these entries, which lie in one page of the image, to their places, if it has that page.
fn bring_page<D: UntornDisk>(
    disk: &mut D,
    areas: Areas,
    page: u64,
    run: &[Entry],
) -> Result<(), Fault>
    requires room { room_of areas ≤ length (D.device disk.old).now.bytes }
    requires places { AreWordPlaces run.now }
    requires page { All (λ e. e.at / 4096 ≡ page) run.now }
    ensures ok { OnOk result ((D.device disk.new).now.bytes
        ≡ with_home areas (replayed run.now (home_of areas (D.device disk.old).now.bytes)) (D.device disk.old).now.bytes) }
    ensures between { (image : List ℕ) → length image ≡ image_bytes areas → AreOf image run.now
        → StaysBetween areas (HasHome areas image) (D.device disk.old) (D.device disk.new) }
    ensures syncs { MakesSyncs 0 (D.device disk.old) (D.device disk.new) }
    ensures steady { OnOk result ((D.device disk.new).failures ≡ (D.device disk.old).failures) }
    ensures cause { OnErr result (HasFailedSince (D.device disk.old) (D.device disk.new)) }
{
    if page >= areas.image as u64 {
        return Ok(());
    }
    let _size = disk.size();
    let from = page * PAGE as u64;
    let at = image_place(areas) + from;
    let mut bytes = [0u8; PAGE];
    read_within(disk, at, &mut bytes)?;
    put_words(from, run, &mut bytes);
    disk.write_untorn(at, &bytes)
}

/// Where the image begins.
pub(crate) fn image_place(areas: Areas) -> u64
    requires { room_of areas < 2 ^ 64 }
    ensures { result ≡ image_at areas }
{
    (areas.half as u64 * 2 + 1) * PAGE as u64
}

// Puts the words of these entries, which lie in this part of an image, to their places.
fn put_words(from: u64, run: &[Entry], out: &mut [u8])
    requires within { All (λ e. (from ≤ e.at) × (e.at + 8 ≤ from + length out.old)) run.now }
    ensures { (image : List ℕ) → from + length out.old ≤ length image → out.old ≡ part from (length out.old) image
        → out.new ≡ part from (length out.old) (replayed run.now image) }
{
    for entry in run {
        overwrite(out, entry.at - from, &entry.word.to_be_bytes());
    }
}
