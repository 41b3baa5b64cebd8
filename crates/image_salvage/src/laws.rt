//! A law of first lines: a contract of a function that does nothing.
ghost use Rattle.image_salvage.specs.Notes.{NoteLaw};

/// The first line of what is salvaged is a comment.
pub fn note_law()
    // The first line of what is salvaged is skipped: the file declares what it declares without that line.
    ensures { NoteLaw }
{}
