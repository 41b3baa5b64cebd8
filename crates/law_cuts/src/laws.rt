//! The laws of cuts. Each is the contract of a function that does nothing, so that the gate proves it.

ghost use Rattle.law_cuts.specs.Laws.{UnionLaw, StableLaw, OneStableLaw, StayLaw, PartTrimLaw, UnloggedLaw};

/// The greater of two whole closed cuts, lane by lane, is one.
pub fn union_law()
    ensures { UnionLaw }
{}

/// Each list has just one stable cut.
pub fn stable_law()
    ensures exists { StableLaw }
    ensures one { OneStableLaw }
{}

/// A whole closed cut stays one as the log grows.
pub fn stay_law()
    // A whole, closed cut stays whole and closed as a legal log grows.
    ensures { StayLaw }
{}

/// A part of a whole closed cut may be left out: the stable cut of all is that part and the stable cut since.
pub fn part_trim_law()
    // The stable cut of all is the base plus the stable cut of what was done since. The base needn't be closed: it lies
    // within a whole, closed cut.
    ensures { PartTrimLaw }
{}

/// A field whose stores logs don't keep has its first value, after each legal log and in each cut of it.
pub fn unlogged_law()
    ensures { UnloggedLaw }
{}
