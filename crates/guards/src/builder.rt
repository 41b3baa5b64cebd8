//! Takes the declarations of a schema.

ghost use Rattle.std.specs.Prelude.{◌≡◌, ◌≢◌, ◌<◌, ◌≤◌, ◌↔◌, ◌⊎◌, ℕ, true, false, [], Some, Contains, IfOk, IfErr, IfSome, OnOk, OnErr, IsErr, IsErrOf, slice_get};
ghost use Rattle.guards.specs.Schema.{object_count, field_count, names_of, nothing, with_object, with_field, field_of, IsNewName, IsSchema};
ghost use Rattle.guards.specs.Declaring.{Declares};
ghost use Rattle.heap_model.specs.declared.limits.TheConstants.{MOST_OBJECTS, MOST_FIELDS};

use crate::error::SchemaError;
use crate::field_row::FieldRow;
use crate::fields::{add_field, field_name_at, has_field};
use crate::names::{add_name, has_name, number_named};
use crate::schema::Schema;
use heap_model::{FieldId, MOST_FIELDS, MOST_OBJECTS, ObjectId};
use indexmap::IndexMap;
use std::alloc::Global;
use std::marker::Model;

/// A schema in the making. Contracts see what was declared so far.
///
/// After a refusal it is as it was, and takes further declarations.
#[derive(Drop)]
pub struct SchemaBuilder {
    objects: IndexMap<String, ()>,
    fields: IndexMap<String, FieldRow>,
}

impl Model for SchemaBuilder {
    ghost use Rattle.guards.specs.Schema.{Declarations, IsWithinLimits};
    ghost use Rattle.guards.specs.Tables.{declared_by};

    ghost Value = { Declarations };

    ghost view = { λ b. declared_by b.objects.entries b.fields.entries };

    ghost invariant = { λ b. IsWithinLimits (declared_by b.objects.entries b.fields.entries) };
}

impl SchemaBuilder {
    /// A builder with nothing declared.
    pub fn new(alloc: Global) -> SchemaBuilder
        ensures { result ≡ nothing }
    {
        SchemaBuilder {
            objects: IndexMap::new(alloc),
            fields: IndexMap::new(alloc),
        }
    }

    /// Declares an object, and gives its number: the first has 0, each next one more.
    ///
    /// Refused, in this order: `Empty`, `DoubleName`, `TooMany`, `NoMemory`.
    pub fn object(&mut self, name: &str) -> Result<ObjectId, SchemaError>
        // An accepted object gets the next number, and stands after the objects before it.
        ensures ok { IfOk result (λ id. (id.0 ≡ object_count self.old)
            × (self.new ≡ with_object self.old name.now)) }
        // An object is refused as `Empty` exactly where its name is empty.
        ensures empty { IsErrOf result SchemaError.Empty ↔ (name.now ≡ []) }
        // An object is refused as `DoubleName` exactly where its name isn't empty and another object has it.
        ensures double_name { IsErrOf result SchemaError.DoubleName
            ↔ ((name.now ≢ []) × Contains self.old.objects name.now) }
        ensures known { result ≢ Err SchemaError.UnknownObject }
        // An object is refused as `TooMany` exactly where its name is new and there are as many objects as a schema may
        // have.
        ensures too_many { IsErrOf result SchemaError.TooMany
            ↔ (IsNewName self.old.objects name.now × (object_count self.old ≡ MOST_OBJECTS)) }
        // A refused object leaves the builder as it was.
        ensures err { OnErr result (self.new ≡ self.old) }
    {
        if name.is_empty() {
            return Err(SchemaError::Empty);
        }
        if has_name(&self.objects, name) {
            return Err(SchemaError::DoubleName);
        }
        let count = self.objects.len();
        if count >= MOST_OBJECTS {
            return Err(SchemaError::TooMany);
        }
        if add_name(&mut self.objects, name, ()).is_err() {
            return Err(SchemaError::NoMemory);
        }
        Ok(ObjectId(count as u32))
    }

    /// Declares a persistent field of `owner`, guarded by the monitor of `guard`, that begins with
    /// `first`. Gives its number: the first has 0, each next one more, over all owners.
    ///
    /// Refused, in this order: `Empty`, `DoubleName`, `UnknownObject`, `TooMany`, `NoMemory`.
    pub fn field(
        &mut self,
        owner: ObjectId,
        name: &str,
        guard: ObjectId,
        first: u64,
    ) -> Result<FieldId, SchemaError>
        // A field that is declared so is persistent.
        ensures declares { Declares owner name.now guard first false self.old result self.new }
    {
        let row = FieldRow {
            owner,
            guard,
            first,
            is_transient: false,
        };
        self.declare(name, row)
    }

    /// Declares a transient field: threads load and store it as any other, no log keeps its stores,
    /// and after each recovery it has its first value again. As a Java `transient` field, it is for
    /// what can be had anew: caches, statistics, handles to the outside.
    ///
    /// It shares names, numbers and limit with the fields that [`SchemaBuilder::field`] declares, and
    /// is refused as they are.
    pub fn transient(
        &mut self,
        owner: ObjectId,
        name: &str,
        guard: ObjectId,
        first: u64,
    ) -> Result<FieldId, SchemaError>
        // A field that is declared so is transient. It is refused as a persistent one is.
        ensures declares { Declares owner name.now guard first true self.old result self.new }
    {
        let row = FieldRow {
            owner,
            guard,
            first,
            is_transient: true,
        };
        self.declare(name, row)
    }

    /// The object declared under this name.
    pub fn object_named(&self, name: &str) -> Option<ObjectId>
        // An object that a name finds was declared by this name.
        ensures found { IfSome result (λ id. slice_get self.now.objects id.0 ≡ Some name.now) }
        ensures declared { IfSome result (λ id. id.0 < object_count self.now) }
        // The name of each object finds that object.
        ensures own { (object : ℕ) → slice_get self.now.objects object ≡ Some name.now
            → result ≡ Some (record { 0 = object }) }
    {
        let number = number_named(&self.objects, name)?;
        Some(ObjectId(number as u32))
    }

    /// How many fields are declared. They are numbered from 0.
    pub fn fields(&self) -> u32
        // A builder tells how many fields are declared so far.
        ensures count { result ≡ field_count self.now }
        ensures limit { field_count self.now ≤ MOST_FIELDS }
    {
        self.fields.len() as u32
    }

    /// The name of the field.
    pub fn field_name(&self, field: FieldId) -> &str
        requires { field.0 < field_count self.now }
        // The answer is the name by which the field was declared.
        ensures { slice_get (names_of self.now.fields) field.0 ≡ Some result.now }
    {
        field_name_at(&self.fields, field.0 as usize)
    }

    /// The allocator that the declarations use.
    pub fn allocator(&self) -> Global {
        *self.objects.allocator()
    }

    /// Closes the declarations. It takes no memory, so its one refusal is `Empty`, where there is
    /// no object or no field; the builder then comes back as it was.
    pub fn build(self) -> Result<Schema, (SchemaBuilder, SchemaError)>
        // A built schema is exactly the declarations that were accepted, in their order.
        ensures ok { IfOk result (λ schema. schema ≡ self) }
        // A built schema is within the limits of a schema.
        ensures schema { IfOk result IsSchema }
        // A build is refused exactly where no object or no field is declared.
        ensures empty { IsErr result ↔ ((object_count self ≡ 0) ⊎ (field_count self ≡ 0)) }
        // A refused build gives the builder back as it was.
        ensures back { IfErr result (λ refused. (refused.0 ≡ self) × (refused.1 ≡ SchemaError.Empty)) }
    {
        if self.objects.is_empty() || self.fields.is_empty() {
            return Err((self, SchemaError::Empty));
        }
        let SchemaBuilder { objects, fields } = self;
        Ok(Schema::of(objects, fields))
    }

    // Declares the field of this row, behind the others.
    fn declare(&mut self, name: &str, row: FieldRow) -> Result<FieldId, SchemaError>
        ensures ok { IfOk result (λ id. (id.0 ≡ field_count self.old)
            × (self.new ≡ with_field self.old (field_of name.now row.owner row.guard row.first row.is_transient))) }
        ensures empty { IsErrOf result SchemaError.Empty ↔ (name.now ≡ []) }
        ensures double_name { IsErrOf result SchemaError.DoubleName
            ↔ ((name.now ≢ []) × Contains (names_of self.old.fields) name.now) }
        ensures unknown_object { IsErrOf result SchemaError.UnknownObject
            ↔ (IsNewName (names_of self.old.fields) name.now
            × ((object_count self.old ≤ row.owner.0) ⊎ (object_count self.old ≤ row.guard.0))) }
        ensures too_many { IsErrOf result SchemaError.TooMany
            ↔ (IsNewName (names_of self.old.fields) name.now × (row.owner.0 < object_count self.old)
            × (row.guard.0 < object_count self.old) × (field_count self.old ≡ MOST_FIELDS)) }
        ensures err { OnErr result (self.new ≡ self.old) }
    {
        if name.is_empty() {
            return Err(SchemaError::Empty);
        }
        if has_field(&self.fields, name) {
            return Err(SchemaError::DoubleName);
        }
        let objects = self.objects.len();
        if row.owner.0 as usize >= objects || row.guard.0 as usize >= objects {
            return Err(SchemaError::UnknownObject);
        }
        let count = self.fields.len();
        if count >= MOST_FIELDS {
            return Err(SchemaError::TooMany);
        }
        if add_field(&mut self.fields, name, row).is_err() {
            return Err(SchemaError::NoMemory);
        }
        Ok(FieldId(count as u32))
    }
}
