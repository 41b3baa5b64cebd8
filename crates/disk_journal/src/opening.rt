//! Finding what a journaled device stands for.
ghost use Rattle.std.specs.Prelude.{◌≡◌, ◌⊎◌, ◌+◌, ◌*◌, ◌/◌, ◌^◌, ◌<◌, ◌≤◌, ℕ, List, All, IfErr, IfOk, IfSome, IsErrOf, IsFalse, IsTrue, OnErr, OnOk, if◌then◌else◌, length, not, true};
ghost use Rattle.block_disk.specs.Bytes.{part};
ghost use Rattle.block_disk.specs.Device.{SameMoments};
ghost use Rattle.block_disk.specs.Since.{HasFailedSince};
ghost use Rattle.atomic_sectors.specs.Left.{LeavesWhole, MakesSyncs, Reads};
ghost use Rattle.journal_batches.specs.Areas.{half_bytes, half_of, home_of, image_bytes, room_of};
ghost use Rattle.journal_batches.specs.Batches.{StampsUpTo, batch_in};
ghost use Rattle.journal_batches.specs.Coded.{HasStamp, IsBatchOf, batch_of};
ghost use Rattle.journal_batches.specs.Entries.{AreOf, DifferWithin};
ghost use Rattle.journal_batches.specs.Shown.{is_second_newest, shown, under, under_both};
ghost use Rattle.disk_journal.specs.Kept.{AreWithin, Touches};
ghost use Rattle.disk_journal.specs.Labels.{HasLabel, HasNoLabel};
ghost use Rattle.disk_journal.specs.Opened.{AreRead, HasNoWords, IsAfterAll, IsChosen, IsOpened, IsPlanned, IsUnchosen, LiesInBatch, LiesWithin, TellsWhy, WritesAgain, WritesAgainFirst, batch_bytes, batch_of_found};
ghost use Rattle.disk_journal.specs.Refusals.{AreNoJournal, IsUntouched, StandsThrough};
ghost use Rattle.disk_journal.specs.Stands.{IsAllHome, StandsStill};
ghost use Rattle.disk_journal.specs.Steps.{AreWordPlaces};
ghost use Rattle.disk_journal.specs.declared.error.JournalError.TheVariants.{Fault, NoJournal, NoMemory, TooSmall, Worn};

use crate::error::JournalError;
use crate::label::{LABEL_BYTES, has_room, label_areas};
use crate::pages::{PAGE, flush, half_place, image_place, write_again};
use crate::settling::clear;
use crate::touching::touch;
use atomic_sectors::UntornDisk;
use block_disk::{Disk, lies_within, read_within};
use journal_batches::{
    Areas, Entry, Found, entries_at, latest_stamp, pages_of, read_batch, replay,
};
use std::alloc::{AllocError, Global};

/// What a journaled device stands for: which half has the newest batch, its stamp, and the image, which is at its place.
#[derive(Drop)]
pub(crate) struct Opened {
    pub areas: Areas,
    pub second: bool,
    pub stamp: u64,
    pub image: Vec<u8>,
}

// What both halves hold.
#[derive(Drop)]
pub(crate) struct Halves {
    pub first: Vec<u8>,
    pub second: Vec<u8>,
}

// The batches that were found in them.
#[derive(Drop)]
pub(crate) struct Batches {
    pub first: Option<Found>,
    pub second: Option<Found>,
}

// What is to be done: which half has the newest batch, how many pages of it, and whether it has no words; the latest stamp; and the words to bring to their
// places.
#[derive(Drop)]
pub(crate) struct Choice {
    pub second: bool,
    pub pages: usize,
    pub is_empty: bool,
    pub top: u64,
    pub entries: Vec<Entry>,
}

// From this stamp on a journal is worn out.
const WORN: u64 = 1 << 63;

/// Finds the image, brings it to its place, and clears the journal: by three flushes. What is trusted is written again before the first one, for the device
/// may lack what was read, if a flush has failed in another process. Memory is taken before anything is written.
pub(crate) fn open_journal<D: UntornDisk>(
    alloc: Global,
    disk: &mut D,
) -> Result<Opened, JournalError>
    ensures label { IfOk result (λ opened. HasLabel opened.areas (D.device disk.old).now.bytes) }
    ensures room { IfOk result (λ opened. room_of opened.areas ≤ length (D.device disk.old).now.bytes) }
    ensures image { IfOk result (λ opened. opened.image.items ≡ shown opened.areas (D.device disk.old).now.bytes) }
    ensures home { IfOk result (λ opened. IsOpened opened (D.device disk.new)) }
    ensures again { IfOk result (λ opened. WritesAgain opened.areas (D.device disk.old) (D.device disk.new)) }
    ensures stamp { IfOk result (λ opened. opened.stamp < 2 ^ 63 + 2) }
    ensures after { IfOk result (λ opened. IsAfterAll opened.areas (D.device disk.old).now.bytes opened.stamp) }
    ensures first { WritesAgainFirst (D.device disk.old) (D.device disk.new) }
    ensures syncs { OnOk result (MakesSyncs 3 (D.device disk.old) (D.device disk.new)) }
    ensures steady { OnOk result ((D.device disk.new).failures ≡ (D.device disk.old).failures) }
    // An opening's device stands for the same image at each moment, however the opening ends.
    ensures left { StandsThrough (D.device disk.old) (D.device disk.new) }
    // A refusal says why.
    ensures why { IfErr result (λ why. TellsWhy why (D.device disk.old).now.bytes) }
    // A device without a label isn't opened.
    ensures unlabelled { HasNoLabel (D.device disk.old).now.bytes → IsErrOf result NoJournal ⊎ IsErrOf result Fault }
    ensures untouched { IfErr result (λ why. IsUntouched why (D.device disk.old) (D.device disk.new)) }
    // What is no journal stays as it was, whatever fails.
    ensures others { AreNoJournal (D.device disk.old).now.bytes → SameMoments (D.device disk.old) (D.device disk.new) }
    ensures cause { IsErrOf result Fault → HasFailedSince (D.device disk.old) (D.device disk.new) }
{
    let areas = find_areas(disk)?;
    open_areas(alloc, disk, areas)
}

// The parts that the label tells of, if the device has room for them.
fn find_areas<D: UntornDisk>(disk: &mut D) -> Result<Areas, JournalError>
    ensures label { IfOk result (λ areas. HasLabel areas (D.device disk.old).now.bytes) }
    ensures room { IfOk result (λ areas. room_of areas ≤ length (D.device disk.old).now.bytes) }
    ensures half { IfOk result (λ areas. 1 ≤ areas.half) }
    ensures size { length (D.device disk.old).now.bytes < 2 ^ 64 }
    ensures ok { OnOk result (D.device disk.new ≡ D.device disk.old) }
    ensures same { SameMoments (D.device disk.old) (D.device disk.new) }
    ensures why { IfErr result (λ why. TellsWhy why (D.device disk.old).now.bytes) }
    ensures unlabelled { HasNoLabel (D.device disk.old).now.bytes → IsErrOf result NoJournal ⊎ IsErrOf result Fault }
    ensures untouched { IfErr result (λ why. IsUntouched why (D.device disk.old) (D.device disk.new)) }
    ensures cause { IsErrOf result Fault → HasFailedSince (D.device disk.old) (D.device disk.new) }
{
    let size = disk.size();
    if size < LABEL_BYTES as u64 {
        return Err(JournalError::NoJournal);
    }
    let mut bytes = [0u8; LABEL_BYTES];
    match read_within(disk, 0, &mut bytes) {
        Ok(()) => {}
        Err(_) => return Err(JournalError::Fault),
    }
    let Some(areas) = label_areas(&bytes) else {
        return Err(JournalError::NoJournal);
    };
    if !has_room(areas, size) {
        return Err(JournalError::TooSmall);
    }
    Ok(areas)
}

// Opens a device that has room for these parts.
fn open_areas<D: UntornDisk>(
    alloc: Global,
    disk: &mut D,
    areas: Areas,
) -> Result<Opened, JournalError>
    requires label { HasLabel areas (D.device disk.old).now.bytes }
    requires room { room_of areas ≤ length (D.device disk.old).now.bytes }
    requires half { 1 ≤ areas.half }
    ensures areas { IfOk result (λ opened. opened.areas ≡ areas) }
    ensures image { IfOk result (λ opened. opened.image.items ≡ shown areas (D.device disk.old).now.bytes) }
    ensures home { IfOk result (λ opened. IsOpened opened (D.device disk.new)) }
    ensures again { IfOk result (λ opened. WritesAgain opened.areas (D.device disk.old) (D.device disk.new)) }
    ensures stamp { IfOk result (λ opened. opened.stamp < 2 ^ 63 + 2) }
    ensures after { IfOk result (λ opened. IsAfterAll opened.areas (D.device disk.old).now.bytes opened.stamp) }
    ensures first { MakesSyncs 0 (D.device disk.old) (D.device disk.new) ⊎ WritesAgain areas (D.device disk.old) (D.device disk.new) }
    ensures syncs { OnOk result (MakesSyncs 3 (D.device disk.old) (D.device disk.new)) }
    ensures steady { OnOk result ((D.device disk.new).failures ≡ (D.device disk.old).failures) }
    ensures left { LeavesWhole (D.device disk.old) (D.device disk.new) (StandsStill areas (D.device disk.old).now.bytes) }
    ensures why { IfErr result (λ why. TellsWhy why (D.device disk.old).now.bytes) }
    ensures untouched { IfErr result (λ why. IsUntouched why (D.device disk.old) (D.device disk.new)) }
    ensures cause { IsErrOf result Fault → HasFailedSince (D.device disk.old) (D.device disk.new) }
{
    let _size = disk.size();
    let Ok(mut halves) = take_halves(alloc, areas.half * PAGE) else {
        return Err(JournalError::NoMemory);
    };
    let Ok(mut image) = vec![in alloc; 0u8; areas.image * PAGE] else {
        return Err(JournalError::NoMemory);
    };
    match read_parts(disk, areas, &mut halves, &mut image) {
        Ok(()) => {}
        Err(_) => return Err(JournalError::Fault),
    }
    let choice = match choose(alloc, &halves, &mut image) {
        Ok(choice) => choice,
        Err(why) => return Err(why),
    };
    match bring(disk, areas, &choice) {
        Ok(()) => {}
        Err(_) => return Err(JournalError::Fault),
    }
    Ok(Opened {
        areas,
        second: !choice.second,
        stamp: choice.top + 2,
        image,
    })
}

// Memory for both halves, of so many bytes each.
fn take_halves(alloc: Global, len: usize) -> Result<Halves, AllocError>
    ensures first { IfOk result (λ halves. length halves.first.items ≡ len) }
    ensures second { IfOk result (λ halves. length halves.second.items ≡ len) }
{
    let first = vec![in alloc; 0u8; len]?;
    let second = vec![in alloc; 0u8; len]?;
    Ok(Halves { first, second })
}

// Reads both halves and the image's place.
fn read_parts<D: UntornDisk>(
    disk: &mut D,
    areas: Areas,
    halves: &mut Halves,
    image: &mut Vec<u8>,
) -> Result<(), block_disk::Fault>
    requires room { room_of areas ≤ length (D.device disk.old).now.bytes }
    requires first { length halves.old.first.items ≡ half_bytes areas }
    requires second { length halves.old.second.items ≡ half_bytes areas }
    requires image { length image.old.items ≡ image_bytes areas }
    ensures ok { OnOk result (AreRead areas halves.new image.new.items (D.device disk.old).now.bytes) }
    ensures untouched { OnOk result (D.device disk.new ≡ D.device disk.old) }
    ensures same { SameMoments (D.device disk.old) (D.device disk.new) }
    ensures cause { OnErr result (HasFailedSince (D.device disk.old) (D.device disk.new)) }
{
    let _size = disk.size();
    read_into(disk, half_place(areas, false), &mut halves.first)?;
    read_into(disk, half_place(areas, true), &mut halves.second)?;
    read_into(disk, image_place(areas), image)?;
    Ok(())
}

// Reads as many bytes as these, from `at` on.
fn read_into<D: UntornDisk>(
    disk: &mut D,
    at: u64,
    bytes: &mut Vec<u8>,
) -> Result<(), block_disk::Fault>
    requires fits { at + length bytes.old.items ≤ length (D.device disk.old).now.bytes }
    ensures ok { OnOk result (bytes.new.items ≡ part at (length bytes.old.items) (D.device disk.old).now.bytes) }
    ensures untouched { OnOk result (D.device disk.new ≡ D.device disk.old) }
    ensures same { SameMoments (D.device disk.old) (D.device disk.new) }
    ensures cause { OnErr result (HasFailedSince (D.device disk.old) (D.device disk.new)) }
{
    read_within(disk, at, bytes)
}

// What the halves say, and the image, which is made of what its place has.
fn choose(alloc: Global, halves: &Halves, image: &mut Vec<u8>) -> Result<Choice, JournalError>
    requires first { (n : ℕ) × (length halves.now.first.items ≡ n * 4096) × (1 ≤ n) }
    requires second { length halves.now.second.items ≡ length halves.now.first.items }
    requires image { length image.old.items ≡ length image.old.items / 8 * 8 }
    ensures ok { IfOk result (λ choice. IsChosen halves.now image.old.items image.new.items choice) }
    // The latest stamp is one of theirs.
    ensures one { IfOk result (λ choice. HasStamp choice.top halves.now.first.items ⊎ HasStamp choice.top halves.now.second.items) }
    ensures err { IfErr result (λ why. IsUnchosen why halves.now) }
{
    let top = latest_stamp(&halves.first).max(latest_stamp(&halves.second));
    if top >= WORN {
        return Err(JournalError::Worn);
    }
    let Ok(batches) = read_batches(alloc, halves) else {
        return Err(JournalError::NoMemory);
    };
    replay_both(&batches.first, &batches.second, image);
    let Ok(entries) = words_of(alloc, &batches, &image[..]) else {
        return Err(JournalError::NoMemory);
    };
    let second = is_second(&batches);
    let newest = batch_held(&batches, second);
    Ok(Choice {
        second,
        pages: pages_in(newest),
        is_empty: has_no_words(newest),
        top,
        entries,
    })
}

// The batches that the halves hold.
fn read_batches(alloc: Global, halves: &Halves) -> Result<Batches, AllocError>
    ensures first { IfOk result (λ batches. IsBatchOf halves.now.first.items batches.first) }
    ensures second { IfOk result (λ batches. IsBatchOf halves.now.second.items batches.second) }
{
    let first = read_batch(alloc, &halves.first)?;
    let second = read_batch(alloc, &halves.second)?;
    Ok(Batches { first, second })
}

// Whether the second half has the newest batch.
fn is_second(batches: &Batches) -> bool
    ensures { result ≡ is_second_newest (batch_of_found batches.now.first) (batch_of_found batches.now.second) }
{
    match &batches.first {
        None => batches.second.is_some(),
        Some(first) => match &batches.second {
            None => false,
            Some(second) => first.stamp < second.stamp,
        },
    }
}

// The batch of a half.
fn batch_held(batches: &Batches, second: bool) -> &Option<Found>
    ensures { result.now ≡ (if second then batches.now.second else batches.now.first) }
{
    if second {
        &batches.second
    } else {
        &batches.first
    }
}

// How many pages a batch takes; none, if there is none.
fn pages_in(found: &Option<Found>) -> usize
    ensures is { result * 4096 ≡ batch_bytes (batch_of_found found.now) }
    ensures fits { (half : List ℕ) (n : ℕ) → length half ≡ n * 4096 → IsBatchOf half found.now → result ≤ n }
{
    match found {
        None => 0,
        Some(batch) => pages_of(batch.entries.len()),
    }
}

// Whether there is no batch, or it has no words.
fn has_no_words(found: &Option<Found>) -> bool
    ensures { HasNoWords (batch_of_found found.now) → result ≡ true }
{
    match found {
        None => true,
        Some(batch) => batch.entries.len() == 0,
    }
}

// The image under both batches.
fn replay_both(first: &Option<Found>, second: &Option<Found>, image: &mut Vec<u8>)
    ensures { image.new.items ≡ under_both (batch_of_found first.now) (batch_of_found second.now) image.old.items }
{
    match first {
        None => match second {
            None => {}
            Some(only) => replay(&only.entries, image),
        },
        Some(batch) => match second {
            None => replay(&batch.entries, image),
            Some(other) => {
                if batch.stamp < other.stamp {
                    replay_under(other, batch, image);
                } else {
                    replay_under(batch, other, image);
                }
            }
        },
    }
}

// The image under the newest batch, and under the other one first where that is the one before it.
fn replay_under(newest: &Found, other: &Found, image: &mut [u8])
    ensures { image.new ≡ under (batch_of newest.now) (batch_of other.now) image.old }
{
    if other.stamp < newest.stamp && newest.stamp - other.stamp == 1 {
        replay(&other.entries, image);
    }
    replay(&newest.entries, image);
}

// The image's words at the places of both batches.
fn words_of(alloc: Global, batches: &Batches, image: &[u8]) -> Result<Vec<Entry>, AllocError>
    requires { length image.now ≡ length image.now / 8 * 8 }
    ensures own { IfOk result (λ entries. AreOf image.now entries.items) }
    ensures places { IfOk result (λ entries. AreWordPlaces entries.items) }
    ensures all { IfOk result (λ entries. (home : List ℕ) → image.now ≡ under_both (batch_of_found batches.now.first) (batch_of_found batches.now.second) home
        → DifferWithin entries.items home image.now) }
{
    let mut places = Vec::new(alloc);
    if !note_batch(&mut places, &batches.first, image.len())
        || !note_batch(&mut places, &batches.second, image.len())
    {
        return Err(AllocError);
    }
    places.sort_unstable();
    entries_at(alloc, image, &places)
}

// Notes the words that a batch touches.
fn note_batch(places: &mut Vec<u64>, found: &Option<Found>, size: usize) -> bool
    requires words { size ≡ size / 8 * 8 }
    requires within { AreWithin size places.old.items }
    ensures within { AreWithin size places.new.items }
    ensures kept { IsTrue result → (i : ℕ) → Touches places.old.items i → Touches places.new.items i }
    ensures all { IsTrue result → (i : ℕ) → LiesInBatch size found.now i → Touches places.new.items i }
{
    match found {
        None => true,
        Some(batch) => note_words(places, &batch.entries, size),
    }
}

// Notes the words that these entries touch, of those that lie within the image.
fn note_words(places: &mut Vec<u64>, entries: &[Entry], size: usize) -> bool
    requires words { size ≡ size / 8 * 8 }
    requires within { AreWithin size places.old.items }
    ensures within { AreWithin size places.new.items }
    ensures kept { IsTrue result → (i : ℕ) → Touches places.old.items i → Touches places.new.items i }
    ensures all { IsTrue result → (i : ℕ) → LiesWithin size entries.now i → Touches places.new.items i }
{
    for entry in entries {
        if !note_word(places, *entry, size) {
            return false;
        }
    }
    true
}

// Notes the words that an entry touches, if it lies within the image.
fn note_word(places: &mut Vec<u64>, entry: Entry, size: usize) -> bool
    requires words { size ≡ size / 8 * 8 }
    requires within { AreWithin size places.old.items }
    ensures within { AreWithin size places.new.items }
    ensures kept { IsTrue result → (i : ℕ) → Touches places.old.items i → Touches places.new.items i }
    ensures all { IsTrue result → (i : ℕ) → entry.at + 8 ≤ size → entry.at ≤ i → i < entry.at + 8 → Touches places.new.items i }
{
    if !lies_within(entry.at, 8, size) {
        return true;
    }
    touch(places, entry.at, 8, size)
}

// Brings the image to its place, and clears the journal. What is trusted is written again first.
fn bring<D: UntornDisk>(
    disk: &mut D,
    areas: Areas,
    choice: &Choice,
) -> Result<(), block_disk::Fault>
    requires room { room_of areas ≤ length (D.device disk.old).now.bytes }
    requires half { 1 ≤ areas.half }
    requires planned { IsPlanned areas (D.device disk.old).now.bytes choice.now }
    ensures again { OnOk result (WritesAgain areas (D.device disk.old) (D.device disk.new)) }
    ensures first { MakesSyncs 0 (D.device disk.old) (D.device disk.new) ⊎ WritesAgain areas (D.device disk.old) (D.device disk.new) }
    ensures syncs { OnOk result (MakesSyncs 3 (D.device disk.old) (D.device disk.new)) }
    ensures steady { OnOk result ((D.device disk.new).failures ≡ (D.device disk.old).failures) }
    ensures left { LeavesWhole (D.device disk.old) (D.device disk.new) (StandsStill areas (D.device disk.old).now.bytes) }
    ensures image { OnOk result (shown areas (D.device disk.new).now.bytes ≡ shown areas (D.device disk.old).now.bytes) }
    ensures home { OnOk result (IsAllHome areas (not choice.now.second) (choice.now.top + 2) (D.device disk.new)) }
    ensures cause { OnErr result (HasFailedSince (D.device disk.old) (D.device disk.new)) }
{
    write_trusted(disk, areas, choice)?;
    flush(disk)?;
    clear(disk, areas, choice.second, choice.top, &choice.entries)
}

// Writes again what is trusted, as it reads: the label, the newest batch, and the image if that batch has no words. A batch with words is written only while
// the image is durable, but for words that the batches replay. After an empty batch words may have gone to the image past the journal.
fn write_trusted<D: UntornDisk>(
    disk: &mut D,
    areas: Areas,
    choice: &Choice,
) -> Result<(), block_disk::Fault>
    requires room { room_of areas ≤ length (D.device disk.old).now.bytes }
    requires planned { IsPlanned areas (D.device disk.old).now.bytes choice.now }
    ensures again { OnOk result (WritesAgain areas (D.device disk.old) (D.device disk.new)) }
    ensures reads { Reads (λ bytes. bytes ≡ (D.device disk.old).now.bytes) (D.device disk.old) (D.device disk.new) }
    ensures syncs { MakesSyncs 0 (D.device disk.old) (D.device disk.new) }
    ensures steady { OnOk result ((D.device disk.new).failures ≡ (D.device disk.old).failures) }
    ensures cause { OnErr result (HasFailedSince (D.device disk.old) (D.device disk.new)) }
{
    let _size = disk.size();
    write_again(disk, 0, 1)?;
    write_again(disk, half_place(areas, choice.second), choice.pages)?;
    let pages = if choice.is_empty { areas.image } else { 0 };
    write_again(disk, image_place(areas), pages)
}
