//! A law of the commit: the contract of a function that does nothing.
ghost use Rattle.image.specs.Laws.{SteadyNow, SteadyStays};

/// A control that shows with nothing pending may be followed by a commit, and goes on to while only bytes outside of the
/// slots are written.
pub fn steady_law()
    // Where a control shows and nothing is pending, a commit may be made.
    ensures now { SteadyNow }
    // A commit may still be made after bytes outside of the slots were written.
    ensures stays { SteadyStays }
{}
