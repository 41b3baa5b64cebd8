//! What an image holds before its lanes' areas.
use image::{Control, GuardRow, Layout, Slot};

/// What an image holds before its lanes' areas, home cells apart.
#[derive(Drop)]
pub struct Front {
    /// The layout of the image.
    pub layout: Layout,
    /// The guard rows, by field.
    pub guards: Vec<GuardRow>,
    /// The slot of the control that counts.
    pub slot: Slot,
    /// That control.
    pub control: Control,
}
