//! A schema that was built.

ghost use Rattle.std.specs.Prelude.{◌≡◌, ◌<◌, ℕ, Some, IfSome, slice_get};
ghost use Rattle.guards.specs.Schema.{object_count, field_count, names_of, owner_of, guard_of, first_of, is_transient_of, IsSchema};
ghost use Rattle.guards.specs.Tables.{declared_by};

use crate::field_row::FieldRow;
use crate::fields::{field_name_at, field_number, row_at};
use crate::names::{name_at, number_named};
use heap_model::{FieldId, ObjectId};
use indexmap::IndexMap;
use std::marker::Model;

/// The objects and the fields of a heap.
#[derive(Drop)]
pub struct Schema {
    objects: IndexMap<String, ()>,
    fields: IndexMap<String, FieldRow>,
}

impl Model for Schema {
    ghost use Rattle.guards.specs.Schema.{Declarations, IsSchema};
    ghost use Rattle.guards.specs.Tables.{declared_by};

    ghost Value = { Declarations };

    ghost view = { λ b. declared_by b.objects.entries b.fields.entries };

    ghost invariant = { λ b. IsSchema (declared_by b.objects.entries b.fields.entries) };
}

impl Schema {
    /// The schema that these tables declare.
    pub(crate) fn of(objects: IndexMap<String, ()>, fields: IndexMap<String, FieldRow>) -> Schema
        requires { IsSchema (declared_by objects.entries fields.entries) }
        ensures { result ≡ declared_by objects.entries fields.entries }
    {
        Schema { objects, fields }
    }

    /// How many objects there are. They are numbered from 0.
    pub fn objects(&self) -> u32
        ensures count { result ≡ object_count self.now }
        ensures schema { IsSchema self.now }
    {
        self.objects.len() as u32
    }

    /// How many fields there are. They are numbered from 0.
    pub fn fields(&self) -> u32
        ensures count { result ≡ field_count self.now }
        ensures schema { IsSchema self.now }
    {
        self.fields.len() as u32
    }

    /// The object whose monitor a thread has to hold when it loads or stores the field.
    pub fn guard(&self, field: FieldId) -> ObjectId
        requires { field.0 < field_count self.now }
        ensures guard { result.0 ≡ guard_of self.now field.0 }
        ensures declared { result.0 < object_count self.now }
    {
        row_at(&self.fields, field.0 as usize).guard
    }

    /// The object that has the field.
    pub fn owner(&self, field: FieldId) -> ObjectId
        requires { field.0 < field_count self.now }
        ensures owner { result.0 ≡ owner_of self.now field.0 }
        ensures declared { result.0 < object_count self.now }
    {
        row_at(&self.fields, field.0 as usize).owner
    }

    /// The value with which the field begins when a heap is formatted, and a transient one at each open.
    pub fn first(&self, field: FieldId) -> u64
        requires { field.0 < field_count self.now }
        ensures { result ≡ first_of self.now field.0 }
    {
        row_at(&self.fields, field.0 as usize).first
    }

    /// Whether the field is transient: no log keeps its stores, and it begins with its first value at
    /// each open.
    pub fn transient(&self, field: FieldId) -> bool
        requires { field.0 < field_count self.now }
        // A field is transient exactly where it was declared so.
        ensures { result ≡ is_transient_of self.now field.0 }
    {
        row_at(&self.fields, field.0 as usize).is_transient
    }

    /// The name of the object.
    pub fn object_name(&self, object: ObjectId) -> &str
        requires { object.0 < object_count self.now }
        // The answer is the name by which the object was declared.
        ensures { slice_get self.now.objects object.0 ≡ Some result.now }
    {
        name_at(&self.objects, object.0 as usize)
    }

    /// The name of the field.
    pub fn field_name(&self, field: FieldId) -> &str
        requires { field.0 < field_count self.now }
        // The answer is the name by which the field was declared.
        ensures { slice_get (names_of self.now.fields) field.0 ≡ Some result.now }
    {
        field_name_at(&self.fields, field.0 as usize)
    }

    /// The object of this name.
    pub fn object_named(&self, name: &str) -> Option<ObjectId>
        // An object that a name finds was declared by this name.
        ensures found { IfSome result (λ id. slice_get self.now.objects id.0 ≡ Some name.now) }
        // The name of each object finds that object.
        ensures own { (object : ℕ) → slice_get self.now.objects object ≡ Some name.now
            → result ≡ Some (record { 0 = object }) }
    {
        let number = number_named(&self.objects, name)?;
        Some(ObjectId(number as u32))
    }

    /// The field of this name.
    pub fn field_named(&self, name: &str) -> Option<FieldId>
        // A field that a name finds was declared by this name.
        ensures found { IfSome result (λ id. slice_get (names_of self.now.fields) id.0 ≡ Some name.now) }
        // The name of each field finds that field.
        ensures own { (field : ℕ) → slice_get (names_of self.now.fields) field ≡ Some name.now
            → result ≡ Some (record { 0 = field }) }
    {
        let number = field_number(&self.fields, name)?;
        Some(FieldId(number as u32))
    }
}
