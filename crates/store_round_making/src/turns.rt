//! Which rounds may be made, each law the contract of a function that does nothing.
ghost use Rattle.store_round_making.specs.Turns.{AcknowledgeTurnLaw, HomesLaw, LogTurnLaw};

/// A round in one turn or in two: what the premise of [`crate::make_round`] comes to.
pub fn turns_law()
    // A round leaves no cell that lacks what it keeps, where it covers each field to which a section of the last round
    // stores, or a record beyond the last round's cut.
    ensures homes { HomesLaw }
    // A round may take newer records on and acknowledge nothing: it has no sections, and covers what those of the last round cover.
    ensures logging { LogTurnLaw }
    // A round after one with no sections may acknowledge a later cut of what was logged, with no sections: it writes the
    // cells of what changes, which live records cover.
    ensures acknowledging { AcknowledgeTurnLaw }
{}
