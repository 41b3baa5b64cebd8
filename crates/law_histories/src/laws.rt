//! The laws of histories, of logs and of the heaps that cuts of them keep. Each is the contract of a function that does nothing, so that the gate proves it.

ghost use Rattle.law_histories.specs.Laws.{LogLaw, StateLaw, OwnLogLaw, OwnLaw, SentLaw, OrderLaw, UndoLaw, TrimLaw, TrimHeapLaw, SplitLaw, NextLaw};

/// The logged events of a legal history are a legal list of records.
pub fn log_law()
    ensures { LogLaw }
{}

/// The state after a legal history is that of its log.
pub fn state_law()
    // After a legal history each owner, each number, each logged field's value and each wait is that of the history's
    // log.
    ensures { StateLaw }
{}

/// A lane of the log is the log of that thread's own events.
pub fn own_log_law()
    ensures { OwnLogLaw }
{}

/// A thread's own view agrees with the state of every legal history that has its events.
pub fn own_law()
    // A thread's own view of its holds and its wait agrees with the state after every legal history that has its
    // events.
    ensures { OwnLaw }
{}

/// What a thread has sent grows at its end.
pub fn sent_law()
    ensures { SentLaw }
{}

/// The order of the lanes' records among one another doesn't matter to what a cut keeps.
pub fn order_law()
    // The order of the lanes' records among one another doesn't change the heap that a whole cut keeps, in a longer
    // list too.
    ensures { OrderLaw }
{}

/// Putting back what a closed cut drops gives the heap that it keeps.
pub fn undo_law()
    ensures { UndoLaw }
{}

/// A trimmed log tells the same: the stable cut of all is the base and the stable cut since, the heap of a
/// cut is that of the base with the stores since, and the records since may follow those of the base.
pub fn trim_law()
    // The stable cut of all is the base plus the stable cut of what was done since.
    ensures cut { TrimLaw }
    ensures heap { TrimHeapLaw }
    ensures split { SplitLaw }
{}

/// The earliest record that isn't applied may be applied next.
pub fn next_law()
    ensures { NextLaw }
{}
