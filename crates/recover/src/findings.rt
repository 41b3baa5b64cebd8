//! A study, with the fields that recovery has to write.
use crate::studied::Study;
use heap_model::FieldId;

/// What was found out about an image.
#[derive(Drop)]
pub struct Findings {
    /// What it holds, and what recovery makes of it.
    pub study: Study,
    /// The fields that take an old value back, by number.
    pub undone: Vec<FieldId>,
}
