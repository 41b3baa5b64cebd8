//! A store lets its device meet who has the other end of it.
use crate::store::RoundStore;
use block_disk::Meets;

impl<D: Meets> RoundStore<D> {
    ghost use Rattle.std.specs.Prelude.{◌≡◌};

    /// Lets the device meet its other end ([`Meets`]). Neither the device nor what the store knows changes.
    pub fn meet(&mut self, peer: &mut D::Peer)
        requires { D.is_peer self.old.disk peer.old }
        ensures known { self.new.known ≡ self.old.known }
        ensures device { D.device self.new.disk ≡ D.device self.old.disk }
        ensures pair { D.is_peer self.new.disk peer.new }
        ensures met { D.have_met self.new.disk peer.new }
        // A store stays as it was while its device meets its host.
        ensures stays { D.stays peer.old peer.new }
    {
        self.disk.meet(peer);
    }
}
