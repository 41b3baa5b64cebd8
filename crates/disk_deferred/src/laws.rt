//! A law of syncs, the contract of a function that does nothing.
ghost use Rattle.disk_deferred.specs.Syncs.{SinceLaw};

/// What a crash of a host's device may leave once it was synced as often as its disk was then, a crash of that disk might have left
/// since then.
pub fn since_law()
    // What a crash leaves of the host's device is of a moment since some earlier device of the disk, once the host's
    // device was synced as often as that one.
    ensures { SinceLaw }
{}
