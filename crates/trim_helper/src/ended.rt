//! A session that has ended.
use heap_model::Lane;
use monitor::Seat;
use thread_rings::Sender;

/// What a session leaves when it has ended, as the helper meets it.
#[derive(Drop)]
pub struct Ended {
    /// Its seat.
    pub seat: Seat,
    /// Its lane.
    pub lane: Lane,
    /// How many monitors it holds.
    pub held: u32,
    /// Its end of the ring, which has all that it sent.
    pub producer: Sender,
}
