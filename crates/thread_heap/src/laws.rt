//! What sessions and helper stay to one another while they run. Each law is the contract of a function that does nothing.
ghost use Rattle.thread_heap.specs.Life.{BirthLaw, ClosedLifeLaw, DrainLifeLaw, FailedLaw, LifeLaw};
ghost use Rattle.thread_heap.specs.Laws.{CallLaw, DrainLaw, EndedLaw, RingsLaw, RoundLaw, WaitLaw};

use block_disk::Disk;

/// A session that was joined to a helper stays so over each of its calls, a wait included, and over the helper's. One that has
/// ended stays ready to meet it.
pub fn joined_law()
    // A session stays joined to its helper over each of its calls.
    ensures call { CallLaw }
    // A session stays joined to its helper over a wait.
    ensures wait { WaitLaw }
    // A session stays joined to its helper over the helper's calls.
    ensures rings { RingsLaw }
    // A session that has ended stays ready to meet its helper.
    ensures ended { EndedLaw }
{}

/// What store calls a helper has made since its heap was opened: none at first, then those of each round after which its store hasn't
/// failed and of each drain, and those of a closing. After a fault there are no more: a store that has failed stays as it is over each
/// round, and so does its device.
pub fn life_law<D: Disk>()
    // The store calls of a helper are one run since the heap was opened, which begins on the device that was recovered.
    ensures begins { BirthLaw D.device }
    // The run of a helper's store calls goes on over a round after which the store hasn't failed.
    ensures round { LifeLaw D.device }
    // The run of a helper's store calls goes on over a drain.
    ensures drain { DrainLifeLaw D.device }
    ensures failed { FailedLaw D.device }
    // The run of a helper's store calls goes on over the closing, to its end.
    ensures closed { ClosedLifeLaw D.device }
{}

/// A helper goes on over its calls.
pub fn helping_law<D: Disk>()
    // A helper stays its heap's over a round, whatever that answers.
    ensures round { RoundLaw D.device }
    // A helper stays its heap's over a bare drain.
    ensures drain { DrainLaw D.device }
{}
