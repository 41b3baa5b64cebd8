//! What C calls of a journal. Each export is one call of `journal_calls` on the journal of the handle.
ghost use Rattle.std.specs.Prelude.{◌≡◌, ◌≢◌};
ghost use Rattle.zelamiku.specs.HandleDoors.{AnswersBy};
ghost use Rattle.zelamiku.specs.JournalDoors.{MakesJournal, OpensJournal, OrdersAt, ReadsAt, SyncsAt, WritesAt};
ghost use Rattle.zelamiku.specs.declared.status.TheConstants.{OK};

use crate::slot::{Slot, is_taken, put_new};
use crate::state::Open;
use crate::{journal_calls, status};
use host_journal::HostJournal;
use std::alloc::Global;

/// Opens the journal of a device.
#[unsafe(no_mangle)]
pub extern "C" fn zelamiku_journal_open(
    alloc: Global,
    place: &mut Slot,
    bytes: &[u8],
    image_size: &mut u64,
) -> u32
    // A journal is opened with what the bytes of its device stand for, and C is told how many bytes its image has. A
    // handle that is in use is answered `OPEN` and keeps what it has. Where no journal is opened the size is 0.
    ensures { OpensJournal bytes.now image_size.new place.old place.new result }
{
    *image_size = 0;
    if is_taken(alloc, place) {
        return status::OPEN;
    }
    match HostJournal::open(alloc, bytes) {
        Ok(journal) => {
            let size = journal.size();
            let Ok(()) = put_new(alloc, place, Open::Journal(journal)) else {
                return status::NO_MEMORY;
            };
            *image_size = size;
            status::OK
        }
        Err(refusal) => status::of_journal(refusal),
    }
}

/// Makes a journal of zeros.
#[unsafe(no_mangle)]
pub extern "C" fn zelamiku_journal_create(
    alloc: Global,
    place: &mut Slot,
    half: u32,
    image: u32,
) -> u32
    // A journal is made of halves of so many pages, and of an image of so many pages of zeros. A handle that is in use
    // is answered `OPEN` and keeps what it has.
    ensures { MakesJournal half image place.old place.new result }
{
    if is_taken(alloc, place) {
        return status::OPEN;
    }
    match journal_calls::create(alloc, half, image) {
        Ok(journal) => {
            let Ok(()) = put_new(alloc, place, Open::Journal(journal)) else {
                return status::NO_MEMORY;
            };
            status::OK
        }
        Err(refusal) => status::of_journal(refusal),
    }
}

/// Reads bytes of a journal's image.
#[unsafe(no_mangle)]
pub extern "C" fn zelamiku_journal_read(place: &mut Slot, at: u64, bytes: &mut [u8]) -> u32
    // A read gets the bytes that the image has from a place on, all that were asked for, and changes nothing.
    ensures told { AnswersBy (ReadsAt at bytes.old bytes.new) place.old place.new result }
    // Where nothing is read the buffer stays as it was.
    ensures kept { result ≢ OK → bytes.new ≡ bytes.old }
{
    if !place.is_open() {
        return status::NOTHING;
    }
    journal_calls::read(place.handle.as_mut(), at, bytes)
}

/// Writes bytes of a journal's image, in memory.
#[unsafe(no_mangle)]
pub extern "C" fn zelamiku_journal_write(place: &mut Slot, at: u64, bytes: &[u8]) -> u32
    // A write changes just these bytes of the image. Nothing of it is durable before a sync.
    ensures { AnswersBy (WritesAt at bytes.now) place.old place.new result }
{
    if !place.is_open() {
        return status::NOTHING;
    }
    journal_calls::write(place.handle.as_mut(), at, bytes)
}

/// Orders what was written before what will be: a sync behind which more calls wait.
#[unsafe(no_mangle)]
pub extern "C" fn zelamiku_journal_order(place: &mut Slot) -> u32
    // What was written before an order is durable where anything is that was written after it.
    ensures { AnswersBy OrdersAt place.old place.new result }
{
    if !place.is_open() {
        return status::NOTHING;
    }
    journal_calls::order(place.handle.as_mut())
}

/// Hands over the calls that make durable what was written.
#[unsafe(no_mangle)]
pub extern "C" fn zelamiku_journal_sync(place: &mut Slot) -> u32
    // What was written before a sync is durable once the host has made the calls that the sync hands over.
    ensures { AnswersBy SyncsAt place.old place.new result }
{
    if !place.is_open() {
        return status::NOTHING;
    }
    journal_calls::sync(place.handle.as_mut())
}
