//! The two forms in which sections and their dependences are written.

use crate::picture::Picture;

/// How sections and their dependences are written.
#[derive(Clone, Copy)]
pub(crate) enum Form<'a> {
    /// As lines of `show`.
    Lines,
    /// As nodes and edges of a graph.
    Graph(Picture<'a>),
}
