//! Objects and fields in the making.
ghost use Rattle.std.specs.Prelude.{◌≡◌, ◌<◌, ◌≤◌, ◌⊎◌, ◌↔◌, ℕ, Some, Contains, IfOk, OnErr, IsTrue, slice_get};
ghost use Rattle.guards.specs.Schema.{Declarations, nothing, object_count, field_count};
ghost use Rattle.guards.specs.Declaring.{Declares};
ghost use Rattle.script_declarations.specs.Declares.{DeclaresObject, FieldIs, KeepsWhatItRefuses};

use crate::declared::{DeclarationRefusal, Declared, refused};
use guards::{Schema, SchemaBuilder, SchemaError};
use heap_model::{FieldId, ObjectId};
use std::alloc::{AllocError, Global};
use std::marker::Model;

/// What was declared so far. Contracts see the declarations.
///
/// A refused declaration changes nothing, and neither does one for which there is no memory.
#[derive(Drop)]
pub struct Declaring {
    builder: SchemaBuilder,
    has_object: bool,
    has_field: bool,
}

impl Model for Declaring {
    ghost use Rattle.std.specs.Prelude.{◌≡◌, ◌≤◌, ◌<◌, ◌↔◌, IsTrue};
    ghost use Rattle.guards.specs.Schema.{Declarations, object_count, field_count};
    ghost use Rattle.heap_model.specs.declared.limits.TheConstants.{MOST_OBJECTS};

    ghost Value = { Declarations };

    ghost view = { λ d. d.builder };

    ghost invariant = { λ d. (IsTrue d.has_object ↔ (0 < object_count d.builder)) × (object_count d.builder ≤ MOST_OBJECTS) × (IsTrue d.has_field ↔ (0 < field_count d.builder)) };
}

// An object that no schema has. The builder refuses it as it does each that isn't declared, in its own order.
const UNDECLARED: ObjectId = ObjectId(u32::MAX);

impl Declaring {
    /// Nothing is declared.
    pub fn new(alloc: Global) -> Declaring
        ensures { result ≡ nothing }
    {
        Declaring {
            builder: SchemaBuilder::new(alloc),
            has_object: false,
            has_field: false,
        }
    }

    /// Declares an object.
    pub fn object(&mut self, name: &str) -> Result<Declared, AllocError>
        ensures ok { IfOk result (λ said. DeclaresObject self.old said self.new name.now) }
        // A refused line declares nothing.
        ensures refused { KeepsWhatItRefuses self.old self.new result }
        ensures err { OnErr result (self.new ≡ self.old) }
    {
        match self.builder.object(name) {
            Ok(_) => {
                self.has_object = true;
                Ok(Declared::Added)
            }
            Err(error) => refused(error),
        }
    }

    /// Declares a field of the object named `owner`, guarded by the monitor of the one named `guard`: a transient one, or
    /// a persistent one.
    pub fn field(
        &mut self,
        name: &str,
        owner: &str,
        guard: &str,
        first: u64,
        is_transient: bool,
    ) -> Result<Declared, AllocError>
        // A field's line declares it as persistent or as transient, by its first word, with the same refusals.
        ensures ok { FieldIs self.old self.new name.now owner.now guard.now first is_transient result }
        // A refused line declares nothing.
        ensures refused { KeepsWhatItRefuses self.old self.new result }
        ensures err { OnErr result (self.new ≡ self.old) }
    {
        let owner = self.object_named(owner);
        let guard = self.object_named(guard);
        match build_field(&mut self.builder, owner, name, guard, first, is_transient) {
            Ok(_) => {
                self.has_field = true;
                Ok(Declared::Added)
            }
            Err(error) => refused(error),
        }
    }

    // The object of this name, or one that isn't declared.
    fn object_named(&self, name: &str) -> ObjectId
        ensures known { (k : ℕ) → slice_get self.now.objects k ≡ Some name.now → result ≡ record { 0 = k } }
        ensures unknown { ¬ Contains self.now.objects name.now → object_count self.now ≤ result.0 }
    {
        match self.builder.object_named(name) {
            Some(object) => object,
            None => UNDECLARED,
        }
    }

    /// Whether there is no object or no field.
    pub fn is_empty(&self) -> bool
        ensures { IsTrue result ↔ ((object_count self.now ≡ 0) ⊎ (field_count self.now ≡ 0)) }
    {
        !self.has_object || !self.has_field
    }

    /// The schema of what was declared.
    pub fn build(self) -> Schema
        requires objects { 0 < object_count self }
        requires fields { 0 < field_count self }
        ensures { result ≡ self }
    {
        let Declaring { builder, .. } = self;
        match builder.build() {
            Ok(schema) => schema,
            Err(_) => unreachable!(),
        }
    }
}

// The builder has a call for each kind of field.
fn build_field(
    builder: &mut SchemaBuilder,
    owner: ObjectId,
    name: &str,
    guard: ObjectId,
    first: u64,
    is_transient: bool,
) -> Result<FieldId, SchemaError>
    ensures { Declares owner name.now guard first is_transient builder.old result builder.new }
{
    if is_transient {
        builder.transient(owner, name, guard, first)
    } else {
        builder.field(owner, name, guard, first)
    }
}
