//! The first line of what is salvaged: a comment (docs/SCRIPTS.md, "What is left of a damaged image").
ghost use Rattle.std.specs.Prelude.{◌≡◌};
ghost use Rattle.image_salvage.specs.Notes.{cells_note, slot_note};

use image::Slot;

/// That of home cells.
pub(crate) fn cells_note() -> &'static str
    ensures { result.now ≡ cells_note }
{
    "# the values of the home cells, which needn't be those of one moment"
}

/// That of the heap by this slot.
pub(crate) fn slot_note(slot: Slot) -> &'static str
    ensures { result.now ≡ slot_note slot }
{
    match slot {
        Slot::A => "# the heap by control slot a, which needn't be that of one moment",
        Slot::B => "# the heap by control slot b, which needn't be that of one moment",
    }
}
