//! Batches as bytes.
ghost use Rattle.std.specs.Prelude.{◌≡◌, ◌+◌, ◌++◌, ◌*◌, ◌/◌, ◌<◌, ◌≤◌, ◌^◌, All, IfOk, drop, length, map, take};
ghost use Rattle.std.specs.Int.{to_be_bytes, w64};
ghost use Rattle.block_disk.specs.Bytes.{part};
ghost use Rattle.journal_batches.specs.Batches.{StampsUpTo, all_stamped, entries_in, is_complete, number, sectors_for};
ghost use Rattle.journal_batches.specs.Coded.{HasStamp, HasWords, IsBatchOf};
ghost use Rattle.journal_batches.specs.Entries.{AreOf, entered, entries_bytes, replayed};
ghost use Rattle.journal_batches.specs.Spelled.{AreWords, padded, pages_for, sector_bytes, sectors_bytes, spelled};

use crate::entry::Entry;
use block_disk::{lies_within, overwrite};
use std::alloc::{AllocError, Global};

/// A batch that was found complete.
#[derive(Drop)]
pub struct Found {
    pub stamp: u64,
    pub entries: Vec<Entry>,
}

/// How many pages a batch of so many entries takes.
pub fn pages_of(count: usize) -> usize
    ensures { result ≡ pages_for count }
{
    let sectors = sectors_of(count as u64) as usize;
    (sectors - 1) / 8 + 1
}

// How many sectors so many entries take.
fn sectors_of(count: u64) -> u64
    ensures { result ≡ sectors_for count }
{
    if count == 0 { 1 } else { (count - 1) / 31 + 1 }
}

/// Writes a page of a batch into `out`.
pub fn spell_page(stamp: u64, entries: &[Entry], page: usize, out: &mut [u8])
    requires whole { length out.old ≡ 4096 }
    requires within { page < pages_for (length entries.now) }
    ensures { out.new ≡ part (page * 4096) 4096 (spelled stamp entries.now) }
{
    let sectors = out.len() / 512;
    spell_sectors(
        sectors,
        stamp,
        entries.len() as u64,
        &entries[page * 248..],
        out,
    );
}

// Writes so many sectors of a batch, from these entries on.
fn spell_sectors(n: usize, stamp: u64, count: u64, entries: &[Entry], out: &mut [u8])
    requires { length out.old ≡ n * 512 }
    ensures { out.new ≡ sectors_bytes n stamp count entries.now }
{
    for i in 0..n {
        let first = (i * 31).min(entries.len());
        spell_sector(
            stamp,
            count,
            &entries[first..],
            &mut out[i * 512..i * 512 + 512],
        );
    }
}

// Writes a sector with the first of these entries.
fn spell_sector(stamp: u64, count: u64, entries: &[Entry], out: &mut [u8])
    requires { length out.old ≡ 512 }
    ensures { out.new ≡ sector_bytes stamp count entries.now }
{
    put_two(stamp, count, &mut out[..16]);
    spell_entries(entries, &mut out[16..]);
}

// Writes as many of these entries as there is room for, and zeros behind them.
fn spell_entries(entries: &[Entry], out: &mut [u8])
    ensures { out.new ≡ padded (length out.old)
        (entries_bytes (take (length out.old / 16) entries.now)) }
{
    let here = entries.len().min(out.len() / 16);
    put_entries(&entries[..here], &mut out[..16 * here]);
    out[16 * here..].fill(0);
}

// Writes these entries, one behind the other.
fn put_entries(entries: &[Entry], out: &mut [u8])
    requires { length out.old ≡ 16 * length entries.now }
    ensures { out.new ≡ entries_bytes entries.now }
{
    for (i, entry) in entries.iter().enumerate() {
        put_two(entry.at, entry.word, &mut out[16 * i..16 * i + 16]);
    }
}

// Writes two numbers.
fn put_two(first: u64, second: u64, out: &mut [u8])
    requires { length out.old ≡ 16 }
    ensures { out.new ≡ to_be_bytes w64 first ++ to_be_bytes w64 second }
{
    out[..8].copy_from_slice(&first.to_be_bytes());
    out[8..].copy_from_slice(&second.to_be_bytes());
}

/// The batch that a half holds, if it is complete.
pub fn read_batch(alloc: Global, half: &[u8]) -> Result<Option<Found>, AllocError>
    ensures batch { IfOk result (IsBatchOf half.now) }
    // A batch's entries have numbers of eight bytes.
    ensures words { IfOk result HasWords }
{
    if !is_whole(half) {
        return Ok(None);
    }
    let stamp = number_at(half, 0);
    let entries = read_entries(alloc, half, number_at(half, 8) as usize)?;
    Ok(Some(Found { stamp, entries }))
}

// Whether the half holds a batch.
fn is_whole(half: &[u8]) -> bool
    ensures { result ≡ is_complete half.now }
{
    if half.len() < 512 {
        return false;
    }
    let sectors = sectors_of(number_at(half, 8));
    if sectors > (half.len() / 512) as u64 {
        return false;
    }
    are_stamped(sectors as usize, number_at(half, 0), half)
}

// Whether the first n sectors have this stamp.
fn are_stamped(n: usize, stamp: u64, half: &[u8]) -> bool
    requires { n * 512 ≤ length half.now }
    ensures { result ≡ all_stamped n stamp half.now }
{
    for i in 0..n {
        if number_at(half, i * 512) != stamp {
            return false;
        }
    }
    true
}

// So many entries of a half's sectors.
fn read_entries(alloc: Global, half: &[u8], count: usize) -> Result<Vec<Entry>, AllocError>
    requires { sectors_for count * 512 ≤ length half.now }
    ensures items { IfOk result
        (λ entries. entries.items ≡ take count (entries_in (sectors_for count) half.now)) }
    ensures words { IfOk result (λ entries. AreWords entries.items) }
{
    let mut entries = Vec::with_capacity(alloc, count)?;
    for k in 0..count {
        entries.push(entry_at(half, k / 31 * 512 + 16 + k % 31 * 16))?;
    }
    Ok(entries)
}

// The entry that stands at this place of a half.
fn entry_at(half: &[u8], at: usize) -> Entry
    requires { at + 16 ≤ length half.now }
    ensures at { result.at ≡ number (drop at half.now) }
    ensures word { result.word ≡ number (drop (at + 8) half.now) }
    ensures at_fits { result.at < 2 ^ 64 }
    ensures word_fits { result.word < 2 ^ 64 }
{
    Entry {
        at: number_at(half, at),
        word: number_at(half, at + 8),
    }
}

// The number in the eight bytes from `at` on.
fn number_at(bytes: &[u8], at: usize) -> u64
    requires { at + 8 ≤ length bytes.now }
    ensures number { result ≡ number (drop at bytes.now) }
    ensures spelled { to_be_bytes w64 result ≡ part at 8 bytes.now }
{
    let eight = &bytes[at..at + 8];
    u64::from_be_bytes([
        eight[0], eight[1], eight[2], eight[3], eight[4], eight[5], eight[6], eight[7],
    ])
}

/// The latest stamp of a half's sectors.
pub fn latest_stamp(half: &[u8]) -> u64
    // No sector of a half has a stamp after its latest one.
    ensures most { StampsUpTo result half.now }
    // One of its sectors has the latest stamp.
    ensures one { 512 ≤ length half.now → HasStamp result half.now }
{
    let mut latest = 0u64;
    for i in 0..half.len() / 512 {
        latest = latest.max(number_at(half, i * 512));
    }
    latest
}

/// Puts each entry's word at its place, if it lies within the image.
pub fn replay(entries: &[Entry], image: &mut [u8])
    ensures { image.new ≡ replayed entries.now image.old }
{
    for entry in entries {
        enter(*entry, image);
    }
}

// Puts the entry's word at its place, if it lies within the image.
fn enter(entry: Entry, image: &mut [u8])
    ensures { image.new ≡ entered entry image.old }
{
    if lies_within(entry.at, 8, image.len()) {
        overwrite(image, entry.at, &entry.word.to_be_bytes());
    }
}

/// The entries that the image has at these places, in their order.
pub fn entries_at(alloc: Global, image: &[u8], places: &[u64]) -> Result<Vec<Entry>, AllocError>
    requires within { All (λ place. place + 8 ≤ length image.now) places.now }
    ensures own { IfOk result (λ entries. AreOf image.now entries.items) }
    ensures at { IfOk result (λ entries. map (λ e. e.at) entries.items ≡ places.now) }
{
    let mut entries = Vec::with_capacity(alloc, places.len())?;
    for place in places {
        let at = *place;
        let word = number_at(image, at as usize);
        entries.push(Entry { at, word })?;
    }
    Ok(entries)
}
