//! How large an image is, and where its parts lie (`docs/FORMAT.md`, "Image").
ghost use Rattle.std.specs.Prelude.{◌≡◌, ◌↔◌, ◌<◌, ◌+◌, ◌*◌, ◌≤◌, IfSome, IsSome, IsTrue};
ghost use Rattle.image_parts.specs.Layout.{IsLayout, IsLayoutOf, area_at, cell_at, guard_at, record_at, size_of};

use guards::Schema;
use heap_model::{FieldId, LANES, LEAST_CAPACITY, Lane, MOST_CAPACITY, MOST_FIELDS, MOST_OBJECTS};

/// The bytes of the header and of both slots of the control.
pub const HEAD_BYTES: usize = 2160;

// Where the guard rows begin.
const GUARDS_AT: u64 = HEAD_BYTES as u64;

const GUARD_BYTES: u64 = 16;

/// The bytes of a home cell.
pub const CELL_BYTES: u64 = 8;

const RECORD_BYTES: u64 = 16;

/// How many objects, fields and lanes an image has, and how many records a lane's area holds. Every place of the image
/// follows from it; places count bytes from the image's start.
#[derive(Clone, Copy, Debug, PartialEq, Eq)]
pub struct Layout {
    /// The number of objects, 1 to 4,096.
    pub objects: u32,
    /// The number of fields, 1 to 16,384.
    pub fields: u32,
    /// The number of lanes, 1 to 32.
    pub lanes: u8,
    /// The records that a lane's area holds, 2,000 to 1,048,576.
    pub capacity: u32,
}

impl Layout {
    /// The layout of an image with the schema's objects and fields, so many lanes, and so many records in each lane's
    /// area. `None` where `lanes` isn't 1 to 32 or `capacity` isn't 2,000 to 1,048,576.
    pub fn of(schema: &Schema, lanes: u8, capacity: u32) -> Option<Layout>
        // A layout is made exactly for 1 to 32 lanes of 2,000 to 1,048,576 records each.
        ensures within { IsSome result
            ↔ ((1 ≤ lanes) × (lanes ≤ 32) × (2000 ≤ capacity) × (capacity ≤ 1048576)) }
        ensures schema { IfSome result (IsLayoutOf schema.now) }
        ensures lanes { IfSome result (λ layout. layout.lanes ≡ lanes) }
        ensures capacity { IfSome result (λ layout. layout.capacity ≡ capacity) }
    {
        let layout = Layout {
            objects: schema.objects(),
            fields: schema.fields(),
            lanes,
            capacity,
        };
        if layout.is_within_limits() {
            Some(layout)
        } else {
            None
        }
    }

    /// Whether each number is within its limits.
    pub fn is_within_limits(&self) -> bool
        ensures { IsTrue result ↔ IsLayout self.now }
    {
        1 <= self.objects
            && self.objects <= MOST_OBJECTS as u32
            && 1 <= self.fields
            && self.fields <= MOST_FIELDS as u32
            && 1 <= self.lanes
            && self.lanes <= LANES as u8
            && LEAST_CAPACITY <= self.capacity
            && self.capacity <= MOST_CAPACITY
    }

    /// The size of the image, in bytes.
    pub fn size(&self) -> u64
        requires { IsLayout self.now }
        // The answer is the size of the image in bytes.
        ensures { result ≡ size_of self.now }
    {
        self.areas_at() + RECORD_BYTES * u64::from(self.lanes) * u64::from(self.capacity)
    }

    /// Where the field's guard row begins.
    pub fn guard_row(&self, field: FieldId) -> u64
        requires { field.0 < self.now.fields }
        ensures { result ≡ guard_at field.0 }
    {
        GUARDS_AT + GUARD_BYTES * u64::from(field.0)
    }

    /// Where the field's home cell begins.
    pub fn home_cell(&self, field: FieldId) -> u64
        requires { field.0 < self.now.fields }
        ensures { result ≡ cell_at self.now field.0 }
    {
        GUARDS_AT + GUARD_BYTES * u64::from(self.fields) + CELL_BYTES * u64::from(field.0)
    }

    /// Where the lane's area begins, which holds `capacity` records of 16 bytes.
    pub fn lane_area(&self, lane: Lane) -> u64
        requires limits { IsLayout self.now }
        requires lane { lane.0 < self.now.lanes }
        ensures { result ≡ area_at self.now lane.0 }
    {
        self.areas_at() + RECORD_BYTES * u64::from(lane.0) * u64::from(self.capacity)
    }

    /// Where the lane's record of this place lies. A place is used again `capacity` places later.
    pub fn record(&self, lane: Lane, place: u64) -> u64
        requires limits { IsLayout self.now }
        requires lane { lane.0 < self.now.lanes }
        ensures { result ≡ record_at self.now lane.0 place }
    {
        self.lane_area(lane) + RECORD_BYTES * (place % u64::from(self.capacity))
    }

    // The lanes' areas lie behind the home cells.
    fn areas_at(&self) -> u64
        requires { IsLayout self.now }
        ensures { result ≡ 2160 + 24 * self.now.fields }
    {
        GUARDS_AT + (GUARD_BYTES + CELL_BYTES) * u64::from(self.fields)
    }
}
