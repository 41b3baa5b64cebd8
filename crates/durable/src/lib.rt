//! The store of scripts, step by step (Atlas, OOPSLA 2014): what it remembers of the records applied, and the steps that make them
//! durable.
//!
//! A running heap stands on the store of `store_rounds`. This one plays scripts, and makes the image of each heap.
//!
//! [`Store::format`] makes an image, [`Store::adopt`] takes it over. [`Store::apply`] takes the records of each lane,
//! [`Store::log_step`] makes them durable, [`Store::home_step`] brings a logged value to its home cell, and
//! [`Store::settle`] acknowledges the stable cut; [`Store::trim`] forgets what is acknowledged.
//!
//! At every moment of every call, each image that a crash may leave stands for the heap of the acknowledged cut. While the store settles,
//! it stands for that of the old cut or of the new one. [`Store::play`] makes a list of calls, so that this is one theorem.
#![tactic(auto)]

mod beginning;
mod doubt;
mod format;
mod meeting;
mod play;
mod rows;
mod store;
mod store_call;

pub use beginning::fields_of;
pub use doubt::Doubt;
pub use heap_model::StoreError;
pub use rows::{kept_cut, starts};
pub use store::Store;
pub use store_call::StoreCall;
pub use store_image::{Home, standing_law};
