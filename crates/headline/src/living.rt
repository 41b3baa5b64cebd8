//! Which calls make a heap live, and open it.
ghost use Rattle.headline.specs.Living.{OpenedLaw, ReadLaw, RoundLaw, SinceLaw};

use block_disk::Disk;
use thread_heap::life_law;
use trim_helper::seen_law;

/// The premise of [`recover_left`](crate::recover_left) is met by each program that opens a heap by [`thread_heap::open`], makes rounds
/// by [`Helper::round`](trim_helper::Helper::round), and reads a file that it opens by [`disk_file::read_whole`]. This does nothing at run
/// time.
pub fn lives_law<D: Disk>()
    // Each heap that was opened lives, as the theorem's premise says it.
    ensures opened { OpenedLaw D.device }
    // A heap lives on over each round, whatever the round answers.
    ensures round { RoundLaw D.device }
    // What lives since a moment of a heap's life lives.
    ensures since { SinceLaw D.device }
    // A crash while a file is read, before recovery begins, is one of an opening, as the theorem says it.
    ensures read { ReadLaw }
{
    life_law::<D>();
    seen_law::<D>();
}
