//! A helper lets its device meet who has the other end of it.

use crate::helper::Helper;
use block_disk::Meets;

impl<D: Meets> Helper<D> {
    ghost use Rattle.heap_model.specs.Setting.{Setting};
    ghost use Rattle.heap_model.specs.Past.{Past};
    ghost use Rattle.trim_helper.specs.Meets.{SameHelper};
    ghost use Rattle.trim_helper.specs.Parts.{IsServing};

    /// Lets the device meet its other end ([`Meets`]). The helper serves what it served before.
    pub fn meet(&mut self, peer: &mut D::Peer)
        requires { D.is_peer self.old.store.disk peer.old }
        ensures same { SameHelper D.device self.old self.new }
        ensures serves { (s : Setting) (p : Past) → IsServing D.device self.old s p → IsServing D.device self.new s p }
        ensures pair { D.is_peer self.new.store.disk peer.new }
        ensures met { D.have_met self.new.store.disk peer.new }
        // A helper stays as it was while its device meets its host.
        ensures stays { D.stays peer.old peer.new }
    {
        self.store.meet(peer);
    }
}
