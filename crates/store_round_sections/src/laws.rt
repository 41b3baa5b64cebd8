//! The laws of a section's number, each the contract of a function that does nothing.
ghost use Rattle.store_round_sections.specs.Laws.{FirstLaw, NumberLaw};

/// Where a cut keeps a store, there is room for a section before the first record beyond the cut that takes the field's guard.
pub fn number_law()
    // Where a whole closed cut keeps a store to a field, the first record beyond the cut that takes the field's guard takes it at a
    // number from 1 on, below the limit.
    ensures { NumberLaw }
{}

/// Changed fields meet what [`push_sections`](crate::push_sections) asks of their first numbers.
pub fn first_law()
    // Of fields to which the cut keeps a store, each has a number just before its guard's first one.
    ensures { FirstLaw }
{}
