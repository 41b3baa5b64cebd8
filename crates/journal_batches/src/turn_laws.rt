//! What a crash leaves of a turn, as contracts of functions that do nothing.
ghost use Rattle.journal_batches.specs.Laws.{RestsLaw, TurnLaw, TurnedLaw};

/// A device between turns.
pub fn rests_law()
    // A device between turns stands for its image.
    ensures { RestsLaw }
{}

/// A turn.
pub fn turn_law()
    // A crash in a turn leaves the image of before or the one of after.
    ensures left { TurnLaw }
    // After a turn the device is between turns again.
    ensures turned { TurnedLaw }
{}
