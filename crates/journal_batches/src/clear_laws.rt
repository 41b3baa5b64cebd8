//! What a crash leaves of an opening, and of a change that no half has room for, as contracts of functions that do nothing.
ghost use Rattle.journal_batches.specs.Laws.{BroughtLaw, ClearLaw, ClearedLaw, HomeLaw, PassedLaw, PastLaw};

/// The image is brought to its place.
pub fn home_law()
    // A crash while the image is brought to its place leaves the image.
    ensures left { HomeLaw }
    // Once it is there the device stands for it as before.
    ensures brought { BroughtLaw }
{}

/// An empty batch is written once the image is in its place.
pub fn clear_law()
    // A crash while an empty batch is written leaves the image.
    ensures left { ClearLaw }
    // After it nothing is to be replayed.
    ensures cleared { ClearedLaw }
{}

/// Another image is written to its place.
pub fn past_law()
    // A crash meanwhile leaves bytes of both images, and nothing else.
    ensures left { PastLaw }
    // After it nothing is to be replayed.
    ensures passed { PassedLaw }
{}
