//! A record that knows its section.

ghost use Rattle.std.specs.Prelude.{◌<◌};

use heap_model::LaneRecord;

/// A lane's record, and the number of its section.
#[derive(Clone, Copy)]
pub(crate) struct Step {
    pub entry: LaneRecord,
    pub section: u64,
    ghost numbered: { 0 < section },
}
