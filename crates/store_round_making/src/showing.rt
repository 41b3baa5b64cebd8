//! What a crash leaves of rounds, each law the contract of a function that does nothing.
ghost use Rattle.store_round_making.specs.Showing.{ShownAfterLaw, ShownBetweenLaw, ShownMomentLaw, ShownOnLaw};

/// Whatever a crash leaves of rounds of two syncs shows a cut of a beginning of the log: the acknowledged one, or a later one.
pub fn showing_law()
    // What a crash leaves between rounds of two syncs shows the acknowledged cut of the log.
    ensures between { ShownBetweenLaw }
    // What a crash leaves at any moment of a round of two syncs shows the cut that was acknowledged before, or a later one.
    ensures moment { ShownMomentLaw }
    // However a round of two syncs ended, what a crash leaves after it shows the cut that was acknowledged before, or a later one.
    ensures after { ShownAfterLaw }
    // What shows a cut of a log shows it of each longer log, and each earlier cut.
    ensures on { ShownOnLaw }
{}
