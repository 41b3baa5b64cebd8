//! Which versions of an image are taken.

/// The versions of an image that a recovery takes.
#[derive(Clone, Copy, Debug, PartialEq, Eq)]
pub enum Versions {
    /// The current one, 2, alone.
    Current,
    /// Both: 1, from before there were transient fields, and 2.
    Both,
}
