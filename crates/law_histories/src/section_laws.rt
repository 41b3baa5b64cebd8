//! The laws of what lanes hold, of how their sections end, and of lists in which all have. Each is the contract of a
//! function that does nothing, so that the gate proves it.

ghost use Rattle.law_histories.specs.SectionLaws.{HolderLaw, FreedLaw, EndedLaw, LimitsLaw, AllKeptLaw, EarliestLaw};

/// The lane that has an object holds it, and what it frees it holds no more.
pub fn holder_law()
    ensures holder { HolderLaw }
    ensures freed { FreedLaw }
    // A lane's section ends when the lane frees the last object that it holds.
    ensures ended { EndedLaw }
{}

/// A lane within its limits has room for the releases that its section still needs.
pub fn limits_law()
    ensures { LimitsLaw }
{}

/// Where no lane holds anything, all sections are kept, and with them the value of each field.
pub fn all_kept_law()
    ensures { AllKeptLaw }
{}

/// Unless all is done, there is an earliest that isn't, and it may be next.
pub fn earliest_law<A>()
    // A list may have the beginning of each lane of another list. Then it has all of that list, or there is an earliest
    // record that it lacks.
    ensures { EarliestLaw A }
{}
