//! What a field's declaration says beside its name.

use heap_model::ObjectId;

/// A field as a schema keeps it, under its name.
#[derive(Clone, Copy, Debug, PartialEq, Eq)]
pub(crate) struct FieldRow {
    /// The object that has the field.
    pub(crate) owner: ObjectId,
    /// The object whose monitor a thread holds when it loads or stores the field.
    pub(crate) guard: ObjectId,
    /// The field's value when the heap is formatted.
    pub(crate) first: u64,
    /// Whether the field is transient: it begins with that value at each open.
    pub(crate) is_transient: bool,
}
