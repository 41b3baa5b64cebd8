//! Laws of schema files: contracts of functions that do nothing.
ghost use Rattle.script_declarations.specs.SchemaText.{NamesLaw, SchemaTextLaw};

/// The file that has a schema's lines declares that very schema, if a file may have its names. What a file declares has names that
/// a file may have. So a schema that was read from a file, and written, is read as the same one.
pub fn schema_text_law()
    // The file that has a schema's lines declares that very schema and no other, its transient fields among them.
    ensures text { SchemaTextLaw }
    // What a file declares has names that a file may have.
    ensures names { NamesLaw }
{}
