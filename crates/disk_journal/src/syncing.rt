//! A sync of a journaled disk, over its parts.
ghost use Rattle.std.specs.Prelude.{◌≡◌, ◌+◌, ◌/◌, ◌^◌, ◌<◌, ◌≤◌, ◌==◌, not, [], ℕ, length, slice_index, take, OnErr, OnOk};
ghost use Rattle.std.specs.List.{list_any};
ghost use Rattle.std.specs.List.Sorted.{IsNonDecreasing};
ghost use Rattle.std.specs.Vec.{vec_capacity, vec_len};
ghost use Rattle.block_disk.specs.Since.{HasFailedSince};
ghost use Rattle.atomic_sectors.specs.Left.{LeavesWhole, MakesSyncs};
ghost use Rattle.journal_batches.specs.Entries.{AreOf, Covers, replayed};
ghost use Rattle.journal_batches.specs.Shown.{shown};
ghost use Rattle.journal_batches.specs.Spelled.{AreWords, pages_for};
ghost use Rattle.disk_journal.specs.Kept.{AreWithin, HasRoom, Touches, words_among};
ghost use Rattle.disk_journal.specs.Stands.{IsAtRest, StandsMixed, StandsTurned};
ghost use Rattle.disk_journal.specs.Steps.{AreWordPlaces};

use crate::label::number_at;
use crate::settling::{clear, pass, turn};
use atomic_sectors::UntornDisk;
use block_disk::Fault;
use journal_batches::{Areas, Entry, pages_of, rests_law};
use std::mem;

/// Puts the places of touched words in order, and the image's words there into a list that has room for them: each word once.
pub(crate) fn gather(touched: &mut Vec<u64>, image: &[u8], next: &mut Vec<Entry>)
    requires within { AreWithin (length image.now) touched.old.items }
    requires room { HasRoom (vec_len touched.old) next.old.items (vec_len next.old) (vec_capacity next.old) }
    ensures within { AreWithin (length image.now) touched.new.items }
    // The same words are touched.
    ensures same { (i : ℕ) → Touches touched.old.items i → Touches touched.new.items i }
    ensures many { (n : ℕ) → words_among n touched.new.items ≡ words_among n touched.old.items }
    ensures own { AreOf image.now next.new.items }
    ensures places { AreWordPlaces next.new.items }
    ensures all { (i : ℕ) → Touches touched.old.items i → Covers next.new.items i }
    // A word that was written twice waits once.
    ensures count { length next.new.items ≡ words_among (length image.now / 8) touched.old.items }
    ensures words { AreWords next.new.items }
{
    touched.sort_unstable();
    take_words(image, touched, next);
    words_law(next);
}

// Puts the image's words at these places into a list that has room for them: each once.
fn take_words(image: &[u8], places: &[u64], next: &mut Vec<Entry>)
    requires sorted { IsNonDecreasing places.now }
    requires within { AreWithin (length image.now) places.now }
    requires room { HasRoom (length places.now) next.old.items (vec_len next.old) (vec_capacity next.old) }
    ensures own { AreOf image.now next.new.items }
    ensures places { AreWordPlaces next.new.items }
    ensures all { (i : ℕ) → Touches places.now i → Covers next.new.items i }
    ensures count { length next.new.items ≡ words_among (length image.now / 8) places.now }
{
    for i in 0..places.len() {
        if is_new(places, i) {
            let at = places[i];
            let word = number_at(image, at as usize);
            next.push_reserved(Entry { at, word });
        }
    }
}

// Whether the place isn't among those before it, which are in order.
fn is_new(places: &[u64], i: usize) -> bool
    requires within { i < length places.now }
    requires sorted { IsNonDecreasing places.now }
    ensures { list_any (λ place. place == slice_index places.now i) (take i places.now) ≡ not result }
{
    i == 0 || places[i - 1] != places[i]
}

// The numbers of entries are ones of eight bytes. Their type says so of each, and no clause of all, so this goes to each of them, and does nothing there.
fn words_law(entries: &[Entry])
    ensures { AreWords entries.now }
{
    for e in entries {
        fit(e.at, e.word);
    }
}

fn fit(_at: u64, _word: u64)
    ensures { (_at < 2 ^ 64) × (_word < 2 ^ 64) }
{}

// The way of words that fit into no batch: the image is brought to its place, the journal cleared, and then the words are written to their places.
fn go_past<D: UntornDisk>(
    disk: &mut D,
    areas: Areas,
    second: bool,
    stamp: u64,
    last: &[Entry],
    next: &[Entry],
) -> Result<(), Fault>
    requires rest { IsAtRest areas second stamp last.now (D.device disk.old) }
    requires places { AreWordPlaces last.now }
    requires next { AreWordPlaces next.now }
    requires own { AreOf (replayed next.now (shown areas (D.device disk.old).now.bytes)) next.now }
    requires stamp { stamp + 2 < 2 ^ 64 }
    // A crash at any moment of it leaves what stands for bytes of both images.
    ensures left { LeavesWhole (D.device disk.old) (D.device disk.new)
        (StandsMixed areas (replayed next.now (shown areas (D.device disk.old).now.bytes)) (D.device disk.old).now.bytes) }
    ensures image { OnOk result (shown areas (D.device disk.new).now.bytes ≡ replayed next.now (shown areas (D.device disk.old).now.bytes)) }
    ensures rest { OnOk result (IsAtRest areas (not second) (stamp + 2) [] (D.device disk.new)) }
    ensures three_syncs { OnOk result (MakesSyncs 3 (D.device disk.old) (D.device disk.new)) }
    ensures steady { OnOk result ((D.device disk.new).failures ≡ (D.device disk.old).failures) }
    ensures cause { OnErr result (HasFailedSince (D.device disk.old) (D.device disk.new)) }
{
    rests_law();
    clear(disk, areas, second, stamp, last)?;
    pass(disk, areas, !second, stamp + 2, next)
}

/// Makes the device stand for what these words make of its image: by one flush where they fit into a batch. The way is chosen by their number alone.
pub(crate) fn go_on<D: UntornDisk>(
    disk: &mut D,
    areas: Areas,
    second: &mut bool,
    stamp: &mut u64,
    last: &mut Vec<Entry>,
    next: &mut Vec<Entry>,
) -> Result<(), Fault>
    requires rest { IsAtRest areas second.old stamp.old last.old.items (D.device disk.old) }
    requires places { AreWordPlaces last.old.items }
    requires next { AreWordPlaces next.old.items }
    requires own { AreOf (replayed next.old.items (shown areas (D.device disk.old).now.bytes)) next.old.items }
    requires words { AreWords next.old.items }
    requires stamp { stamp.old + 2 < 2 ^ 64 }
    // A crash at any moment of it leaves what stands for bytes of both images.
    ensures left { LeavesWhole (D.device disk.old) (D.device disk.new)
        (StandsMixed areas (replayed next.old.items (shown areas (D.device disk.old).now.bytes)) (D.device disk.old).now.bytes) }
    // Where the words fit into a batch, it leaves what stands for the one image or for the other.
    ensures turned { pages_for (length next.old.items) ≤ areas.half
        → LeavesWhole (D.device disk.old) (D.device disk.new) (StandsTurned areas next.old.items (D.device disk.old).now.bytes) }
    // And then it makes one flush.
    ensures one_sync { pages_for (length next.old.items) ≤ areas.half → OnOk result (MakesSyncs 1 (D.device disk.old) (D.device disk.new)) }
    // Else it makes three.
    ensures three_syncs { areas.half < pages_for (length next.old.items) → OnOk result (MakesSyncs 3 (D.device disk.old) (D.device disk.new)) }
    ensures image { OnOk result (shown areas (D.device disk.new).now.bytes ≡ replayed next.old.items (shown areas (D.device disk.old).now.bytes)) }
    ensures rest { OnOk result (IsAtRest areas second.new stamp.new last.new.items (D.device disk.new)) }
    ensures places { OnOk result (AreWordPlaces last.new.items) }
    // The next words become the last ones, and none is left.
    ensures none { OnOk result ((next.new.items ≡ []) × (vec_len next.new ≡ 0)) }
    ensures stamp { stamp.new ≤ stamp.old + 2 }
    ensures steady { OnOk result ((D.device disk.new).failures ≡ (D.device disk.old).failures) }
    ensures cause { OnErr result (HasFailedSince (D.device disk.old) (D.device disk.new)) }
{
    if pages_of(next.len()) <= areas.half {
        match turn(disk, areas, *second, *stamp, last, next) {
            Ok(()) => {}
            Err(_) => return Err(Fault),
        }
        *second = !*second;
        *stamp += 1;
        mem::swap(last, next);
        next.clear();
        return Ok(());
    }
    match go_past(disk, areas, *second, *stamp, last, next) {
        Ok(()) => {}
        Err(_) => return Err(Fault),
    }
    *second = !*second;
    *stamp += 2;
    last.clear();
    next.clear();
    Ok(())
}
