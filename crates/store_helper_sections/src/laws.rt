//! The laws of the helper's sections, each the contract of a function that does nothing.
ghost use Rattle.store_helper_sections.specs.Laws.{HelperLaw, ShownHeapLaw};

/// The helper's sections and what threads have beyond a cut are one legal list over the heap that the cut keeps.
pub fn helper_law()
    // Sections of the helper's that store to fields what a cut keeps of them, each just before the first section beyond the cut that
    // takes its guard, make one legal list with the records beyond the cut, over the heap that the cut keeps.
    ensures { HelperLaw }
{}

/// An image whose live records go on from a heap stands for it.
pub fn shown_heap_law()
    // An image that shows a heap stands for it: undoing its live records gives the heap, whatever the cells hold of the fields
    // that these store to.
    ensures { ShownHeapLaw }
{}
