//! The laws of what is put back and of what a change leaves. Each is the contract of a function that does nothing, so
//! that the gate proves it.

ghost use Rattle.undo_log.specs.Area.{OneSpanLaw};
ghost use Rattle.undo_log.specs.Frames.{RecordsSurvive, SpareLaw};
ghost use Rattle.undo_log.specs.StandsFor.{ImageStandsLaw, OneHeapLaw};
ghost use Rattle.undo_log.specs.Laws.{OneValueLaw, PlaceLaw, FirstDroppedLaw, KeptLaw, StandsLaw, BackSinceLaw};

/// A field takes one value back.
pub fn one_value_law()
    // A field takes one value back, whatever the lanes' records are.
    ensures { OneValueLaw }
{}

/// It is the same whether what is out is told by sections or by places.
pub fn place_law()
    // What the sections past a cut put back is what the records past its places put back.
    ensures { PlaceLaw }
{}

/// Putting back what a cut drops ends with the value before a field's first dropped store; a field with none is as it was.
pub fn first_dropped_law()
    // A field with a dropped store takes back the value before the first one.
    ensures first { FirstDroppedLaw }
    // A field with no dropped store has in the kept heap its value after all stores.
    ensures kept { KeptLaw }
{}

/// Putting back gives the heap that the cut keeps.
pub fn stands_law()
    // Putting back gives the heap that the cut keeps, whatever the home cells of fields with a dropped store hold.
    ensures { StandsLaw }
{}

/// A trimmed log puts back the same.
pub fn back_since_law()
    // The records since a base put back what all records do.
    ensures { BackSinceLaw }
{}

/// An image that shows a cut stands for the heap that the cut keeps.
pub fn image_stands_law()
    // An image that shows a cut stands for the heap that the cut keeps, in which each transient field has its first
    // value.
    ensures { ImageStandsLaw }
{}

/// An image stands for one heap.
pub fn one_heap_law()
    // An image stands for one heap.
    ensures { OneHeapLaw }
{}

/// A lane's records stay as they are, whatever is written apart from their places.
pub fn survival_law()
    // A lane's records stay while bytes apart from each of their places are written.
    ensures { RecordsSurvive }
{}

/// The places that `append` writes are no live ones.
pub fn spare_law()
    // The next places of a lane, as many as there is room for, are none of its live places.
    ensures { SpareLaw }
{}

/// An image has one list of records between two places.
pub fn one_span_law()
    // An image has one list of records between two places, so that what is read is what was appended.
    ensures { OneSpanLaw }
{}
