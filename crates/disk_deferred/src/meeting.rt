//! A deferred disk meets its host, in whosever hands both are.
ghost use Rattle.disk_deferred.specs.Host.{HasLooked, HaveMet, IsHostOf};

use crate::disk::DeferredDisk;
use crate::host::HostCalls;
use block_disk::Meets;

impl Meets for DeferredDisk {
    type Peer = HostCalls;

    ghost is_peer = { IsHostOf };

    ghost have_met = { HaveMet };

    ghost stays = { HasLooked };

    fn meet(&mut self, peer: &mut HostCalls) {
        peer.meet(self);
    }
}
