//! How many bytes a journal takes, and how many words fit into a batch of it.
ghost use Rattle.std.specs.Prelude.{◌≡◌, ◌↔◌, ◌≤◌, IfSome, IsTrue};
ghost use Rattle.journal_batches.specs.Areas.{room_of};
ghost use Rattle.journal_batches.specs.Spelled.{pages_for};
ghost use Rattle.host_journal.specs.Gathered.{words_in as word_count};

use journal_batches::{Areas, pages_of};

// A half or an image of more pages than that has no place on a device.
const MOST: usize = 1 << 50;

/// How many bytes the journal takes, if a device may have so many.
pub(crate) fn room_for(areas: Areas) -> Option<u64>
    ensures { IfSome result (λ size. size ≡ room_of areas) }
{
    if areas.half > MOST || areas.image > MOST {
        return None;
    }
    Some((1 + 2 * areas.half as u64 + areas.image as u64) * 4096)
}

/// How many words bytes of this length may touch, at most.
pub(crate) fn words_in(len: usize) -> usize
    ensures { result ≡ word_count len }
{
    len / 8 + 2
}

/// Whether so many words fit into one batch.
pub(crate) fn fits(words: usize, areas: Areas) -> bool
    ensures { IsTrue result ↔ (pages_for words ≤ areas.half) }
{
    pages_of(words) <= areas.half
}
