//! Published numbers: how many sections of a lane are acknowledged, and up to which place its log is trimmed.

ghost use Rattle.std.specs.Prelude.{◌≡◌, ◌<◌, ◌≤◌};
ghost use Rattle.monitor.specs.declared.view.Post.TheVariants.{Stable, Trimmed};
ghost use Rattle.monitor.specs.Views.{lane_of};
ghost use Rattle.monitor.specs.Posts.{IsPost, known_post, knowing_post};
ghost use Rattle.monitor.specs.Seats.{IsSeatOf, IsHelperOf};

use crate::seat::{HelperSeat, Seat};
use crate::shared::Shared;
use crate::view::{Post, View};
use atomic_table::Play;
use heap_model::{LANES, Lane};

/// A load of a published number.
pub struct ReadsPost;

impl Play<(), View> for ReadsPost {
    ghost use Rattle.monitor.specs.Kinds.{reads_post};

    ghost then = { reads_post };
}

/// A store of a published number.
pub struct Publishes;

impl Play<(), View> for Publishes {
    ghost use Rattle.monitor.specs.Kinds.{publishes};

    ghost then = { publishes };
}

impl Shared {
    /// How many sections of the seat's lane are acknowledged, as was last published; 0 before. One load.
    pub fn read_stable(&self, seat: &mut Seat) -> u64
        requires seat { IsSeatOf self.now seat.old }
        ensures seat { IsSeatOf self.now seat.new }
        // A reader is answered no less than the number that it read before.
        ensures least { known_post seat.old.view (Stable (lane_of seat.old.view)) ≤ result }
        ensures told { seat.new.view ≡ knowing_post seat.old.view (Stable (lane_of seat.old.view)) result }
    {
        let place = self.post_place(Post::Stable { lane: seat.lane });
        self.table.shared.load::<ReadsPost>(&mut seat.seat, place)
    }

    /// The place, counted in records, up to which the log of the seat's lane is trimmed, as was last published; 0
    /// before. One load.
    pub fn read_trimmed(&self, seat: &mut Seat) -> u64
        requires seat { IsSeatOf self.now seat.old }
        ensures seat { IsSeatOf self.now seat.new }
        // A reader is answered no less than the number that it read before.
        ensures least { known_post seat.old.view (Trimmed (lane_of seat.old.view)) ≤ result }
        ensures told { seat.new.view ≡ knowing_post seat.old.view (Trimmed (lane_of seat.old.view)) result }
    {
        let place = self.post_place(Post::Trimmed { lane: seat.lane });
        self.table.shared.load::<ReadsPost>(&mut seat.seat, place)
    }

    // Publishes one number, which is at least the one before.
    fn publish_one(&self, helper: &mut HelperSeat, post: Post, number: u64)
        requires seat { IsHelperOf self.now helper.old }
        requires post { IsPost post }
        requires up { known_post helper.old.view post ≤ number }
        ensures seat { IsHelperOf self.now helper.new }
        ensures told { helper.new.view ≡ knowing_post helper.old.view post number }
        ensures next { helper.new.next ≡ helper.old.next }
    {
        let place = self.post_place(post);
        self.table
            .shared
            .store::<Publishes>(&mut helper.seat, place, number);
    }

    /// Publishes of a lane how many sections are acknowledged, and up to which place its log is trimmed, counted in
    /// records. Neither may fall. Two stores.
    pub fn publish(&self, helper: &mut HelperSeat, lane: Lane, acknowledged: u64, trimmed: u64)
        requires seat { IsHelperOf self.now helper.old }
        requires lane { lane.0 < LANES }
        // A count of acknowledged sections isn't published below one that was published before.
        requires acknowledged { known_post helper.old.view (Stable lane) ≤ acknowledged }
        // A trimmed place isn't published below one that was published before.
        requires trimmed { known_post helper.old.view (Trimmed lane) ≤ trimmed }
        ensures seat { IsHelperOf self.now helper.new }
        // The helper's view notes both numbers as published.
        ensures told { helper.new.view ≡ knowing_post (knowing_post helper.old.view (Stable lane) acknowledged) (Trimmed lane) trimmed }
        ensures next { helper.new.next ≡ helper.old.next }
    {
        self.publish_one(helper, Post::Stable { lane }, acknowledged);
        self.publish_one(helper, Post::Trimmed { lane }, trimmed);
    }
}
