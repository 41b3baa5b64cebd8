//! Making an image, where a user of the store looks for it.
ghost use Rattle.std.specs.Prelude.{◌≡◌, ◌<◌, ℕ, IfErr, IfOk, slice_index};
ghost use Rattle.std.specs.List.{slice_index_or};
ghost use Rattle.guards.specs.Schema.{field_count, first_of};
ghost use Rattle.image_parts.specs.Calls.{after};
ghost use Rattle.image_parts.specs.Format.{format_calls};
ghost use Rattle.image_parts.specs.Guards.{guard_row_of};
ghost use Rattle.image_parts.specs.Recovered.{IsRecovered};
ghost use Rattle.image_parts.specs.declared.guard_row.GuardRow.{GuardRow as Row};
ghost use Rattle.image_parts.specs.declared.slot.Slot.TheVariants.{A};
ghost use Rattle.store_image.specs.Formatting.{AreLimits, RefusesFormat, layout_with};

use crate::store::Store;
use block_disk::Disk;
use guards::Schema;
use image::{ImageError, Recovered};
use std::alloc::Global;

impl<D: Disk> Store<D> {
    /// Makes an image of the device, for a heap of this schema with so many lanes of so many records. It holds the schema's
    /// first values, and nothing in any log; [`adopt`](Store::adopt) takes it over.
    ///
    /// Refusals, in this order; but for the last the device is as it was:
    /// - `BadHeader`: `lanes` isn't 1 to 32, or `capacity` isn't 2,000 to 1,048,576;
    /// - `TooSmall`: the device is smaller than the image;
    /// - `NoMemory`: there was no room for the guard rows or the heap;
    /// - `Fault`: a call of the device failed. Nothing is claimed of the device then.
    pub fn format(
        alloc: Global,
        disk: D,
        schema: &Schema,
        lanes: u8,
        capacity: u32,
    ) -> Result<Recovered<D>, (D, ImageError)>
        ensures limits { IfOk result (λ made. AreLimits lanes capacity) }
        // Format gives the schema's layout, with so many lanes of so many records.
        ensures layout { IfOk result (λ made. made.layout ≡ layout_with schema.now lanes capacity) }
        ensures control { IfOk result (λ made. (made.slot ≡ A) × (made.sequence ≡ 1)) }
        ensures guards { IfOk result (λ made. (f : ℕ) (d : Row) → f < field_count schema.now
            → slice_index_or made.guards f d ≡ guard_row_of schema.now f) }
        // Format gives the schema's first values.
        ensures heap { IfOk result (λ made. (f : ℕ) → f < field_count schema.now → slice_index made.heap f ≡ first_of schema.now f) }
        // Format gives an image that a store may take over.
        ensures recovered { IfOk result (λ r. IsRecovered (D.device r.disk) r.layout r.guards r.slot r.sequence r.heap) }
        ensures calls { IfOk result (λ made. D.device made.disk ≡ after (format_calls made.layout schema.now) (D.device disk)) }
        // Format is refused by the first of the documented reasons.
        ensures refused { IfErr result (λ back. RefusesFormat schema.now lanes capacity (D.device disk) (D.device back.0) back.1) }
    {
        store_image::format(alloc, disk, schema, lanes, capacity)
    }
}
