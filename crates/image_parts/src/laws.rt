//! Laws of the format, each the contract of a function that does nothing.
ghost use Rattle.image_parts.specs.Layout.{IsLayout};
ghost use Rattle.image_parts.specs.Laws.{AreApart, CellIsRead, CellSurvives, ControlIsChosen, ControlSurvives, ControlsDiffer, EmptyRowsFit, FreshIsImage, GuardRowsDiffer, GuardsAreRead, GuardsSurvive, HeaderIsRead, HeaderSurvives, HeadersDiffer, HomeIsRead, HomeSurvives};
ghost use Rattle.image_parts.specs.declared.layout.Layout.{Layout as Shape};

/// Values in range that have the same bytes are equal. So decoding gives back what was encoded.
pub fn spelling_law()
    // Layouts with the same header are the same.
    ensures header { HeadersDiffer }
    // Guard rows with the same bytes are the same.
    ensures guard_row { GuardRowsDiffer }
    // Controls with the same bytes are the same.
    ensures control { ControlsDiffer }
{}

/// What an image has is what its reader answers, unless a read fails.
pub fn reading_law()
    // A header that an image has is the one that is read.
    ensures header { HeaderIsRead }
    // An image has one list of guard rows.
    ensures guards { GuardsAreRead }
    // A control that an image shows is the one that is chosen.
    ensures control { ControlIsChosen }
    // A field has one value in its home cell.
    ensures cell { CellIsRead }
    // A field has one value at home: a persistent field that in its cell, a transient field its first value.
    ensures home { HomeIsRead }
{}

/// An image just made is one of its layout with the schema's guard rows.
pub fn fresh_law()
    // A new image has its schema's guard rows.
    ensures { FreshIsImage }
{}

/// The parts of an image don't overlap, and lie within it.
pub fn place_law()
    // Header, slots, guard rows, home cells and the lanes' areas don't overlap.
    ensures { (layout : Shape) → IsLayout layout → AreApart layout }
{}

/// A part of an image stays as it is, whatever is written apart from it.
pub fn survival_law()
    // What a reader reads stays while bytes elsewhere are written.
    ensures header { HeaderSurvives }
    // What a reader reads stays while bytes elsewhere are written.
    ensures guards { GuardsSurvive }
    // What a reader reads stays while bytes elsewhere are written.
    ensures control { ControlSurvives }
    // What a reader reads stays while bytes elsewhere are written.
    ensures cell { CellSurvives }
    // What a field has at home stays while bytes outside of its cell are written.
    ensures home { HomeSurvives }
{}

/// The rows of empty logs may be committed to an image of any layout.
pub fn empty_rows_law()
    // The rows of empty logs may be committed to any image.
    ensures { EmptyRowsFit }
{}
