//! What entries make of an image, as contracts of functions that do nothing.
ghost use Rattle.journal_batches.specs.Laws.{AgainLaw, AloneLaw, ReplayLaw};

/// What entries make of an image.
pub fn replay_law()
    // Entries of an image make it of each image that differs from it within their words alone.
    ensures { ReplayLaw }
{}

/// What two batches make of an image.
pub fn again_law()
    // What two batches make of an image, they make of whatever mixes its bytes with those.
    ensures again { AgainLaw }
    // The second batch makes it of itself, too.
    ensures alone { AloneLaw }
{}
