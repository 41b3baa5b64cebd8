//! How the journal takes what was written.
ghost use Rattle.std.specs.Prelude.{◌≡◌, ◌+◌, ◌/◌, ◌-◌, ◌^◌, ◌<◌, ◌≤◌, ℕ, [], true, false, IsTrue, length, min};
ghost use Rattle.block_disk.specs.Device.{Device, SameMoments, synced};
ghost use Rattle.atomic_sectors.specs.Left.{LeavesWhole, MakesSyncs};
ghost use Rattle.disk_journal.specs.Disks.{FitsBatch, IsSettled, SameBelow, ShowsDisk, ShowsOldOrNew};
ghost use Rattle.journal_batches.specs.Spelled.{pages_for};
ghost use Rattle.host_journal.specs.Gathered.{IsCounted, IsGathering, TakesOn};
ghost use Rattle.host_journal.specs.Taken.{Adds, Gathers, SameParts, TakesNext, TakesNone, TakesWrite, Turns};

use crate::gathering::Gathering;
use crate::piece::Piece;
use crate::room::{fits, words_in};
use block_disk::Disk;
use disk_deferred::DeferredDisk;
use disk_journal::Journaled;
use std::alloc::Global;

/// Keeps a write, if there is memory for it.
pub(crate) fn keep(alloc: Global, parts: &mut Gathering, at: u64, bytes: &[u8]) -> bool
    ensures kept { result ≡ true → Adds at bytes.now parts.old parts.new }
    ensures same { result ≡ false → SameParts parts.old parts.new }
    ensures disk { result ≡ false → parts.new.disk ≡ parts.old.disk }
{
    let more = words_in(bytes.len());
    if more > usize::MAX - parts.words {
        return false;
    }
    match bytes.to_vec(alloc) {
        Ok(bytes) => keep_piece(parts, Piece { at, bytes }, more),
        Err(_) => false,
    }
}

// Keeps it, of so many words.
fn keep_piece(parts: &mut Gathering, piece: Piece, more: usize) -> bool
    requires fits { parts.old.words + more < 2 ^ 64 }
    requires words { more ≡ length piece.bytes.items / 8 + 2 }
    ensures kept { result ≡ true → Adds piece.at piece.bytes.items parts.old parts.new }
    ensures same { result ≡ false → SameParts parts.old parts.new }
    ensures disk { result ≡ false → parts.new.disk ≡ parts.old.disk }
{
    match parts.group.reserve(1) {
        Ok(()) => {
            parts.group.push_reserved(piece);
            parts.words += more;
            true
        }
        Err(_) => {
            drop(piece);
            false
        }
    }
}

/// Gives the journal all that was written. If that wouldn't fit into one batch with what the journal has taken before, a turn comes first. Whether the journal has all.
pub(crate) fn gather(parts: &mut Gathering) -> bool
    requires { IsCounted parts.old }
    ensures gathers { Gathers parts.old parts.new }
    ensures none { result ≡ true → (parts.new.group.items ≡ []) × (parts.new.moved ≡ 0) }
{
    if !make_room(parts) {
        return false;
    }
    if !take_all(parts) {
        return false;
    }
    parts.group.clear();
    parts.moved = 0;
    true
}

// Makes a turn, if not all that was written fits into one batch. Whether all went well.
fn make_room(parts: &mut Gathering) -> bool
    requires { IsCounted parts.old }
    ensures gathers { Gathers parts.old parts.new }
    ensures counted { IsCounted parts.new }
    ensures takes_on { result ≡ true → (heap : Device) (base : ℕ) → IsGathering heap base parts.old → TakesOn heap parts.new }
{
    if fits(parts.words, parts.disk.areas()) {
        return true;
    }
    turn(parts)
}

// The journal takes one write after the other. Whether it took all.
fn take_all(parts: &mut Gathering) -> bool
    requires { IsCounted parts.old }
    ensures keeps { (heap : Device) (base : ℕ) → IsGathering heap base parts.old → TakesOn heap parts.old → IsGathering heap base parts.new }
    ensures all { result ≡ true → parts.new.moved ≡ length parts.new.group.items }
    ensures below { SameBelow parts.old.disk parts.new.disk }
    ensures words { parts.new.words ≡ parts.old.words }
    ensures turns { parts.new.turns ≡ parts.old.turns }
{
    while parts.moved < parts.group.len() {
        if !take_one(parts) {
            return false;
        }
    }
    true
}

// The journal takes the next write. Whether it did.
fn take_one(parts: &mut Gathering) -> bool
    requires counted { IsCounted parts.old }
    requires next { parts.old.moved < length parts.old.group.items }
    ensures taken { result ≡ true → TakesNext parts.old parts.new }
    ensures moved { result ≡ true → parts.new.moved ≡ parts.old.moved + 1 }
    ensures group { parts.new.group ≡ parts.old.group }
    ensures same { result ≡ false → SameParts parts.old parts.new }
    ensures none { result ≡ false → TakesNone parts.old.disk parts.new.disk }
{
    let piece = &parts.group[parts.moved];
    if !write_piece(&mut parts.disk, piece) {
        return false;
    }
    parts.taken += words_in(piece.bytes.len());
    parts.moved += 1;
    true
}

// The journal takes this write. Whether it did.
fn write_piece(disk: &mut Journaled<DeferredDisk>, piece: &Piece) -> bool
    ensures taken { result ≡ true → TakesWrite piece.now.at piece.now.bytes.items disk.old disk.new }
    ensures none { result ≡ false → TakesNone disk.old disk.new }
{
    disk.write_at(piece.at, &piece.bytes).is_ok()
}

/// Makes durable what the journal has taken, if it is anything: by one flush, if it fits into a batch. Whether all went well.
pub(crate) fn turn(parts: &mut Gathering) -> bool
    requires { IsCounted parts.old }
    ensures turns { Turns parts.old parts.new }
    ensures counted { IsCounted parts.new }
    ensures taken { result ≡ true → parts.new.taken ≡ 0 }
    ensures words { result ≡ true → parts.new.words + parts.old.taken ≡ parts.old.words }
    ensures turns_err { result ≡ false → parts.new.turns ≡ parts.old.turns }
    // A turn whose words fit into a batch makes one flush.
    ensures one_sync { result ≡ true → 0 < parts.old.taken → FitsBatch parts.old.disk → MakesSyncs 1 parts.old.disk.disk parts.new.disk.disk }
    ensures count { result ≡ true → 0 < parts.old.taken → pages_for parts.old.taken ≤ parts.old.disk.areas.half
        → parts.new.turns ≡ min (parts.old.turns + 1) (2 ^ 64 - 1) }
{
    if parts.taken == 0 {
        return true;
    }
    let is_one = fits(parts.taken, parts.disk.areas());
    if !settle(&mut parts.disk) {
        return false;
    }
    parts.turns = counted(parts.turns, is_one);
    parts.words -= parts.taken;
    parts.taken = 0;
    true
}

// Counts one more, if it is to be counted.
fn counted(count: u64, is_one: bool) -> u64
    ensures { is_one ≡ true → result ≡ min (count + 1) (2 ^ 64 - 1) }
{
    if is_one {
        count.saturating_add(1)
    } else {
        count
    }
}

// A sync of the journal. Whether it went well.
fn settle(disk: &mut Journaled<DeferredDisk>) -> bool
    ensures ok { result ≡ true → disk.new.device ≡ synced disk.old.device }
    ensures settled { result ≡ true → IsSettled disk.new }
    ensures one_sync { result ≡ true → FitsBatch disk.old → MakesSyncs 1 disk.old.disk disk.new.disk }
    ensures err { result ≡ false → SameMoments disk.old.device disk.new.device }
    ensures waiting { result ≡ false → disk.new.waiting ≡ disk.old.waiting }
    ensures any_moment { LeavesWhole disk.old.disk disk.new.disk (ShowsDisk disk.old) }
    ensures old_or_new { FitsBatch disk.old → disk.old.is_over ≡ false → LeavesWhole disk.old.disk disk.new.disk (ShowsOldOrNew disk.old) }
    ensures over { disk.old.is_over ≡ true → SameBelow disk.old disk.new }
    ensures areas { disk.new.areas ≡ disk.old.areas }
{
    disk.sync().is_ok()
}
