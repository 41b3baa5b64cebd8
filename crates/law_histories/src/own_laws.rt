//! The laws of what a thread knows by its own events, whatever the others do. Each is the contract of a function that does
//! nothing, so that the gate proves it.

ghost use Rattle.law_histories.specs.OwnLaws.{KnownLaw, HoldingLaw, OwnSectionsLaw, HeldByViewLaw, AwakeByViewLaw, OthersKeepLaw, OfLanesLaw};

/// What a thread loaded or stored since it took a field's guard is the field's value.
pub fn known_law()
    ensures { KnownLaw }
{}

/// A thread's log holds just what the thread holds by its own events.
pub fn holding_law()
    ensures { HoldingLaw }
{}

/// A thread's own events tell its sections.
pub fn own_sections_law()
    // A lane's records in the log, and so its sections, depend on the thread's own events alone.
    ensures { OwnSectionsLaw }
{}

/// A thread holds what it holds by its own events.
pub fn held_by_view_law()
    // A hold that a thread's own events tell is one in the state: the thread owns the monitor, by this count and at
    // this number.
    ensures { HeldByViewLaw }
{}

/// A thread is awake where it is in no wait by its own events.
pub fn awake_by_view_law()
    ensures { AwakeByViewLaw }
{}

/// Others leave a thread what it owns, with the values that it guards, and leave it as it waits.
pub fn others_keep_law()
    // Another thread's event changes neither what a thread holds, nor its wait, nor the values that its monitors guard.
    // It doesn't undo a removal from a wait set.
    ensures { OthersKeepLaw }
{}

/// A thread that no event of a history is of owns nothing, and is awake.
pub fn of_lanes_law()
    // A history of so many lanes has a log of so many lanes. A thread past them owns nothing and doesn't wait.
    ensures { OfLanesLaw }
{}
