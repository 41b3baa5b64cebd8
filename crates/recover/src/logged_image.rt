//! What an image holds, as it was read.
use heap_model::UndoRecord;
use image::{Control, GuardRow, Layout, Slot};

/// What an image holds that no test refuses.
#[derive(Drop)]
pub struct LoggedImage {
    /// The layout of the image.
    pub layout: Layout,
    /// The slot of the control that counts.
    pub slot: Slot,
    /// That control.
    pub control: Control,
    /// The guard rows, by field.
    pub guards: Vec<GuardRow>,
    /// The live records of each lane, the oldest first.
    pub records: Vec<Vec<UndoRecord>>,
}
