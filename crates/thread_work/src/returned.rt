//! A heap whose threads have come back.
ghost use Rattle.std.specs.Prelude.{◌≡◌};
ghost use Rattle.thread_work.specs.Returns.{IsBack, LeavesBack};

use crate::work::Work;
use block_disk::Disk;
use law_running::round_law;
use monitor::Shared;
use session::SessionError;
use trim_helper::{Ended, Helper, leave};

/// A heap whose threads have come back. It isn't closed yet: [`close_returned`](crate::close_returned) closes it, and
/// [`leave_returned`] leaves it as it is.
#[derive(Drop)]
pub struct Returned<D: Disk> {
    /// The words that the threads have shared.
    pub shared: Shared,
    /// What their sessions leave, by lane.
    pub ended: Vec<Ended>,
    /// The refusal of the least lane whose body has answered one.
    pub answer: Result<(), SessionError>,
    /// The helper, which makes no more rounds.
    pub helper: Helper<D>,
}

/// Lets threads that have come back leave their heap as it is. Nothing of what they still had in their rings is made durable. The device
/// may be recovered.
pub fn leave_returned<D: Disk, W: Work>(work: &W, returned: Returned<D>) -> D
    requires { IsBack (W.does work.now) D.device returned }
    // When threads that have come back leave their heap, its device is as the helper has left it.
    ensures same { result ≡ returned.helper.store.disk }
    // When threads that have come back leave their heap, no crash takes back what a thread had read as stable.
    ensures left { LeavesBack (W.does work.now) D.device returned (D.device result) }
{
    round_law::<D>();
    let _work = work;
    let Returned {
        shared,
        ended,
        answer: _answer,
        helper,
    } = returned;
    leave(shared, ended, helper)
}

// The helper's device.
pub fn disk_of<D: Disk>(helper: Helper<D>) -> D
    ensures { result ≡ helper.store.disk }
{
    helper.into_store().into_disk()
}
