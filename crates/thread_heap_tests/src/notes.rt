//! What workers note of what they did.

use crate::images::Expected;
use heap_model::Cut;

/// How many sections a worker does at most.
pub const MOST: usize = 24;

/// A worker's own record: the number that each of its sections took, by section; 0 of those that it hasn't done.
#[derive(Clone, Copy)]
pub struct Notes {
    numbers: [u64; MOST],
}

impl Notes {
    /// Nothing was done.
    pub fn new() -> Notes {
        Notes { numbers: [0; MOST] }
    }

    /// The section of this place took this number. A place past the last isn't noted.
    pub fn note(&mut self, place: usize, number: u64) {
        if place < MOST {
            self.numbers[place] = number;
        }
    }

    // The last number of so many sections, 0 of none. `None` where there weren't so many.
    fn last_of(&self, sections: u64) -> Option<u64> {
        if sections == 0 {
            return Some(0);
        }
        if sections > MOST as u64 {
            return None;
        }
        match self.numbers[sections as usize - 1] {
            0 => None,
            number => Some(number),
        }
    }

    // Whether just so many sections, the first ones, took one of the first numbers, up to this one.
    fn splits_at(&self, sections: u64, highest: u64) -> bool {
        let mut splits = true;
        for place in 0..MOST {
            let number = self.numbers[place];
            let is_kept = (place as u64) < sections;
            let is_low = number != 0 && number <= highest;
            splits &= is_kept == is_low;
        }
        splits
    }

    // Whether just the first so many sections took one of the first numbers, up to the highest, and this one is the last's.
    fn are_kept(&self, sections: u64, highest: u64, last: u64) -> bool {
        self.last_of(sections) == Some(last) && self.splits_at(sections, highest)
    }
}

/// What two workers did, by their own records, and how many sections of each were acknowledged.
#[derive(Clone, Copy)]
pub struct Did {
    /// What worker 0 did.
    pub first: Notes,
    /// What worker 1 did.
    pub second: Notes,
    /// How many sections of each were acknowledged before the crash, at least.
    pub least: [u64; 2],
}

impl Did {
    // Whether these values are those of just the first so many sections of each worker, which took the first numbers.
    fn has_values(&self, values: &[u64], kept: [u64; 2]) -> bool {
        let all = kept[0].wrapping_add(kept[1]);
        match values {
            [total, first, second] => {
                *total == all
                    && self.first.are_kept(kept[0], all, *first)
                    && self.second.are_kept(kept[1], all, *second)
            }
            _ => false,
        }
    }
}

// The values are those of whole sections that the workers noted, with all that was acknowledged.
impl Expected for Did {
    fn is_met(&self, values: &[u64], kept: &Cut) -> bool {
        let kept = [kept.counts[0], kept.counts[1]];
        let has_least = self.least[0] <= kept[0] && self.least[1] <= kept[1];
        has_least && self.has_values(values, kept)
    }
}
