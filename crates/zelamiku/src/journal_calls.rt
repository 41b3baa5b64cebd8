//! The calls of a journal, on the journal of a handle.
ghost use Rattle.std.specs.Prelude.{◌≡◌, ◌≢◌, IfErr, IfOk, IsOk, Some};
ghost use Rattle.host_journal.specs.Calls.{IsMade, RefusesMaking};
ghost use Rattle.zelamiku.specs.Handles.{Answers};
ghost use Rattle.zelamiku.specs.JournalDoors.{areas_of, OrdersAt, ReadsAt, SyncsAt, WritesAt};
ghost use Rattle.zelamiku.specs.declared.status.TheConstants.{OK};

use crate::state::{Inner, Open};
use crate::status;
use disk_journal::JournalError;
use host_journal::HostJournal;
use journal_batches::Areas;
use std::alloc::Global;

/// A journal of zeros, of halves and an image of so many pages.
pub fn create(alloc: Global, half: u32, image: u32) -> Result<HostJournal, JournalError>
    ensures ok { IfOk result (IsMade (areas_of half image)) }
    ensures why { IfErr result (RefusesMaking (areas_of half image)) }
    ensures no_half { half ≡ 0 → ¬ IsOk result }
{
    let areas = Areas {
        half: half as usize,
        image: image as usize,
    };
    HostJournal::create(alloc, areas)
}

/// Reads bytes of the image from `at` on.
pub fn read(state: &mut Inner, at: u64, bytes: &mut [u8]) -> u32
    ensures told { Answers (ReadsAt at bytes.old bytes.new) (Some state.old) (Some state.new) result }
    ensures kept { result ≢ OK → bytes.new ≡ bytes.old }
{
    match &mut state.open {
        Open::Journal(journal) => status::of_call(journal.read(at, bytes)),
        _ => status::WRONG_KIND,
    }
}

/// Writes these bytes of the image, in memory.
pub fn write(state: &mut Inner, at: u64, bytes: &[u8]) -> u32
    ensures { Answers (WritesAt at bytes.now) (Some state.old) (Some state.new) result }
{
    match &mut state.open {
        Open::Journal(journal) => status::of_call(journal.write(at, bytes)),
        _ => status::WRONG_KIND,
    }
}

/// What was written so far comes before what is written from now on.
pub fn order(state: &mut Inner) -> u32
    ensures { Answers OrdersAt (Some state.old) (Some state.new) result }
{
    match &mut state.open {
        Open::Journal(journal) => status::of_turn(journal.order()),
        _ => status::WRONG_KIND,
    }
}

/// A turn: the calls that make durable what was written are handed over.
pub fn sync(state: &mut Inner) -> u32
    ensures { Answers SyncsAt (Some state.old) (Some state.new) result }
{
    match &mut state.open {
        Open::Journal(journal) => status::of_turn(journal.sync()),
        _ => status::WRONG_KIND,
    }
}
