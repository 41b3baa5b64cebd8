//! What the helper does beside the threads.
ghost use Rattle.std.specs.Prelude.{◌≡◌, false};
ghost use Rattle.thread_work.specs.Serving.{HasServed};
ghost use Rattle.thread_heap.specs.Joined.{IsHelping};

use crate::bell::Bell;
use block_disk::Disk;
use heap_model::StoreError;
use law_running::round_law;
use monitor::Shared;
use std::sync::Wait;
use std::thread;
use thread_heap::{helping_law, life_law};
use trim_helper::{Helper, seen_law};

/// The helper, and why it has stopped.
#[derive(Drop)]
pub struct Served<D: Disk> {
    pub helper: Helper<D>,
    pub answer: Result<(), StoreError>,
}

/// Makes rounds until each body has returned. Where one is refused the threads that wait for the helper are told.
pub fn serve<D: Disk, R: Wait>(rt: &R, shared: &Shared, bell: &Bell, helper: Helper<D>) -> Served<D>
    requires helping { IsHelping D.device shared.now helper }
    requires running { helper.store.known.has_failed ≡ false }
    ensures { HasServed D.device shared.now helper result.helper result.answer }
{
    let mut helper = helper;
    let answer = make_rounds(rt, shared, bell, &mut helper);
    bell.stop();
    Served { helper, answer }
}

// Rounds until each body has returned.
#[tactic(auto, using(crate::proofs::Served::stays, crate::proofs::Served::stays_on))]
fn make_rounds<D: Disk, R: Wait>(
    rt: &R,
    shared: &Shared,
    bell: &Bell,
    helper: &mut Helper<D>,
) -> Result<(), StoreError>
    requires helping { IsHelping D.device shared.now helper.old }
    requires running { helper.old.store.known.has_failed ≡ false }
    ensures { HasServed D.device shared.now helper.old helper.new result }
{
    for _ in rt.forever() {
        let asked = bell.asks();
        if bell.has_ended() {
            return Ok(());
        }
        match make_round(shared, helper) {
            Ok(applied) => hand_on(rt, bell, asked, applied),
            Err(refusal) => return Err(refusal),
        }
    }
    unreachable!()
}

// Tells of a round. A helper that rests sleeps where nothing came in it until it is asked for another.
fn hand_on<R: Wait>(rt: &R, bell: &Bell, asked: u32, applied: u64) {
    bell.tell();
    if !bell.rests() {
        thread::yield_now();
        return;
    }
    if applied == 0 {
        bell.rest(rt, asked);
    }
}

// One round.
fn make_round<D: Disk>(shared: &Shared, helper: &mut Helper<D>) -> Result<u64, StoreError>
    requires helping { IsHelping D.device shared.now helper.old }
    requires running { helper.old.store.known.has_failed ≡ false }
    ensures { HasServed D.device shared.now helper.old helper.new result }
{
    helping_law::<D>();
    life_law::<D>();
    seen_law::<D>();
    round_law::<D>();
    helper.round(shared)
}
