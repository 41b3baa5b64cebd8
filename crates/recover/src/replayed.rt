//! An image with the replay of its live records.
use crate::logged_image::LoggedImage;
use recover_logs::Step;

/// What an image holds that no test refuses, with the replay of its live records.
#[derive(Drop)]
pub struct Replayed {
    /// What it holds.
    pub image: LoggedImage,
    /// Its live records in the order of their replay, the oldest first.
    pub steps: Vec<Step>,
}
