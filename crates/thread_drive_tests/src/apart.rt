//! Workers that needn't meet.

use thread_drive::Meet;

/// Nothing is done within a section.
#[derive(Drop)]
pub struct Apart;

impl Meet for Apart {
    fn inside(&self, _worker: u8) -> bool {
        true
    }
}
