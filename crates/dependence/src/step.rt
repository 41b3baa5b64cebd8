//! A record that knows its section.

ghost use Rattle.std.specs.Prelude.{◌<◌};

use heap_model::{Lane, UndoRecord};

/// A lane's record, and the number of its section, what was forgotten included.
#[derive(Clone, Copy)]
pub struct Step {
    pub lane: Lane,
    pub section: u64,
    pub entry: UndoRecord,
    ghost numbered: { 0 < section },
}
