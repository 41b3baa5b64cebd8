//! A disk that has another end.
ghost use Rattle.std.specs.Prelude.{◌≡◌};

use crate::Disk;

/// A disk with another end, in somebody else's hands, as that of who makes its calls on a device of his own. What owns the disk lets
/// both meet: then each knows of the other what both ends together tell.
pub trait Meets: Disk {
    /// The other end.
    type Peer;

    /// It is the other end of this disk.
    ghost is_peer: { Self → Self.Peer → Type 0 };

    /// What is known of both once they have met.
    ghost have_met: { Self → Self.Peer → Type 0 };

    /// What the meeting leaves of the other end.
    ghost stays: { Self.Peer → Self.Peer → Type 0 };

    /// Lets both meet. The device stays as it is.
    fn meet(&mut self, peer: &mut Self::Peer)
        requires { is_peer self.old peer.old }
        ensures device { Self.device self.new ≡ Self.device self.old }
        ensures pair { is_peer self.new peer.new }
        ensures met { have_met self.new peer.new }
        // Whatever owns the disk stays as it was while the disk meets its host.
        ensures stays { stays peer.old peer.new };
}
