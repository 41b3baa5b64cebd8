//! The table of the fields, each under its name.

ghost use Rattle.std.specs.Prelude.{◌≡◌, ◌+◌, ◌<◌, ◌↔◌, ◌++◌, ◌∷◌, [], ℕ, None, Some, length, Contains, IsTrue, IfSome, OnOk, OnErr, slice_get, slice_index, false};
ghost use Rattle.std.specs.List.{slice_index_or};
ghost use Rattle.guards.specs.Schema.{field_of, names_of, owners_of, guards_of, firsts_of, marks_of};
ghost use Rattle.guards.specs.Tables.{fields_in};

use crate::field_row::FieldRow;
use crate::names::{add_name, has_name, name_at, number_named, value_at};
use indexmap::IndexMap;
use std::alloc::AllocError;

/// Whether there is a field of this name.
pub(crate) fn has_field(fields: &IndexMap<String, FieldRow>, name: &str) -> bool
    ensures { IsTrue result ↔ Contains (names_of (fields_in fields.now.entries)) name.now }
{
    has_name(fields, name)
}

/// Adds a field of a new name behind the others. Want of memory leaves all as it was.
pub(crate) fn add_field(
    fields: &mut IndexMap<String, FieldRow>,
    name: &str,
    row: FieldRow,
) -> Result<(), AllocError>
    requires { Contains (names_of (fields_in fields.old.entries)) name.now → ⊥ }
    ensures ok { OnOk result (fields_in fields.new.entries
        ≡ fields_in fields.old.entries ++ field_of name.now row.owner row.guard row.first row.is_transient ∷ []) }
    ensures err { OnErr result (fields_in fields.new.entries ≡ fields_in fields.old.entries) }
{
    add_name(fields, name, row)
}

/// The number of the field of this name.
pub(crate) fn field_number(fields: &IndexMap<String, FieldRow>, name: &str) -> Option<usize>
    ensures found { IfSome result (λ k. slice_get (names_of (fields_in fields.now.entries)) k
        ≡ Some name.now) }
    ensures within { IfSome result (λ k. k < length fields.now.entries) }
    ensures own { (k : ℕ) → slice_get (names_of (fields_in fields.now.entries)) k ≡ Some name.now
        → result ≡ Some k }
{
    number_named(fields, name)
}

/// The name of the field of this number.
pub(crate) fn field_name_at(fields: &IndexMap<String, FieldRow>, number: usize) -> &str
    requires { number < length fields.now.entries }
    ensures { slice_get (names_of (fields_in fields.now.entries)) number ≡ Some result.now }
{
    name_at(fields, number)
}

/// What is declared of the field of this number, beside its name.
pub(crate) fn row_at(fields: &IndexMap<String, FieldRow>, number: usize) -> FieldRow
    requires { number < length fields.now.entries }
    ensures owner { result.owner.0 ≡ slice_index (owners_of (fields_in fields.now.entries)) number }
    ensures guard { result.guard.0 ≡ slice_index (guards_of (fields_in fields.now.entries)) number }
    ensures first { result.first ≡ slice_index (firsts_of (fields_in fields.now.entries)) number }
    ensures mark { result.is_transient ≡ slice_index_or (marks_of (fields_in fields.now.entries)) number false }
{
    value_at(fields, number)
}
