//! A law of a store and its device, the contract of a function that does nothing.
ghost use Rattle.store_image.specs.Laws.{ConsistentStands, KeptHeapReads, ShownStands};

/// Whatever a crash leaves of a store's device stands for the heap of the acknowledged cut.
pub fn standing_law()
    ensures stands { ConsistentStands }
    // Each image that shows a past stands for the heap of that past's acknowledged cut.
    ensures shown { ShownStands }
    // The heap of the acknowledged cut has a value for each field, the kept one.
    ensures heap { KeptHeapReads }
{}
