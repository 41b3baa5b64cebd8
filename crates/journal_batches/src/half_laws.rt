//! What a half holds that a batch is written to, as contracts of functions that do nothing.
ghost use Rattle.journal_batches.specs.Laws.{HalfLaw, SpelledLaw, StampsLaw};

/// What a half holds once a batch is written to it.
pub fn spelled_law()
    // A half holds the batch that was written to it.
    ensures spelled { SpelledLaw }
    // Its stamps are the old ones and that of the batch.
    ensures stamps { StampsLaw }
{}

/// What a half holds while a batch is written to it.
pub fn half_law()
    // A half of which some sectors are as they were, and the others as a batch has them whose stamp none had, holds the old batch, the new one or none.
    ensures { HalfLaw }
{}
