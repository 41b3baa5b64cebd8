//! How many lanes the image of a heap has for its threads.
ghost use Rattle.std.specs.Prelude.{◌≡◌, ◌≤◌, ◌+◌, ◌↔◌, IsTrue};
ghost use Rattle.thread_work.specs.ImageLanes.{HasLanesFor, lanes_for as image_lanes};

use heap_model::LANES;

/// How many lanes a new image has for so many threads: one for each, and one for the helper where there are fewer than 32. There a round
/// takes two syncs in place of four.
pub fn lanes_for(threads: u8) -> u8
    ensures lanes { result ≡ image_lanes threads }
    ensures some { 1 ≤ result → 1 ≤ threads }
    ensures within { threads ≤ result }
    ensures most { result ≤ threads + 1 }
{
    if 0 < threads && usize::from(threads) < LANES {
        threads + 1
    } else {
        threads
    }
}

/// Whether an image of so many lanes has one for each of so many threads, and at most one more.
pub fn has_lanes_for(threads: u8, lanes: u8) -> bool
    ensures { IsTrue result ↔ HasLanesFor threads lanes }
{
    0 < threads && threads <= lanes && lanes - threads <= 1
}
