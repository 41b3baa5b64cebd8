//! What writes leave between two contents, as contracts of functions that do nothing.
ghost use Rattle.journal_batches.specs.Laws.{HalfWriteLaw, HomeWriteLaw, MixLaw, OldLaw};

/// What is between two contents.
pub fn mix_law()
    // The sectors of contents between two mix to one between them.
    ensures mix { MixLaw }
    // The old one is between them.
    ensures old { OldLaw }
{}

/// What a write leaves between them.
pub fn write_law()
    // A page of a half as the new content has it leaves what is between them.
    ensures half { HalfWriteLaw }
    // So do bytes in the image's place of which each is as it was or as the new content has it.
    ensures home { HomeWriteLaw }
{}
