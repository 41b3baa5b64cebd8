//! The law by which records reach a graph. It is the contract of a function that does nothing, so that the gate proves it.

ghost use Rattle.dependence.specs.Laws.{AllowedLaw};

/// What a legal list of records allows next meets what `Graph::push` asks of it.
pub fn allowed_law()
    // Whatever a legal list of records allows next meets what a push asks of its order. Room and numbers a push asks
    // besides.
    ensures { AllowedLaw }
{}
