//! The objects' numbers at the beginning of a replay.
ghost use Rattle.std.specs.Prelude.{◌≡◌, ◌<◌, ◌≤◌, [], ◌∷◌, ℕ, All, length, slice_index};
ghost use Rattle.recover_logs.specs.Limits.{IsInRange};
ghost use Rattle.recover_logs.specs.Logs.{records_of, lanes_of};
ghost use Rattle.recover_logs.specs.Replay.{BeginsAt};
ghost use Rattle.recover_logs.specs.First.{IsLowered, lowered};

use crate::lanes::records_in;
use heap_model::{LAST_NUMBER, Lane, MOST_OBJECTS, UndoRecord};

/// By object: the least number at which a live record takes it.
pub fn first_numbers(logs: &[Vec<UndoRecord>]) -> [u64; 4096]
    requires lanes { length logs.now ≤ 32 }
    requires range { (l : ℕ) → All IsInRange (records_of logs.now l) }
    ensures { BeginsAt (lanes_of logs.now) (slice_index result) }
{
    let mut numbers = [LAST_NUMBER; MOST_OBJECTS];
    for lane in 0..logs.len() as u8 {
        lower_all(&mut numbers, records_in(logs, Lane(lane)));
    }
    numbers
}

// Lowers each object's number to the least at which one of these records takes it.
fn lower_all(numbers: &mut [u64], records: &[UndoRecord])
    requires objects { length numbers.old ≡ 4096 }
    requires range { All IsInRange records.now }
    ensures { IsLowered numbers.old records.now numbers.new }
{
    for entry in records {
        lower(numbers, *entry);
    }
}

fn lower(numbers: &mut [u64], entry: UndoRecord)
    requires objects { length numbers.old ≡ 4096 }
    requires range { IsInRange entry }
    ensures { numbers.new ≡ lowered numbers.old entry }
{
    if let UndoRecord::Acq { object, number } = entry {
        let least = numbers[object.0 as usize].min(number);
        numbers[object.0 as usize] = least;
    }
}
