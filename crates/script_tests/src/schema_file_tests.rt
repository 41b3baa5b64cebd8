//! What schema files declare, and what they are refused for.
use crate::tests::Source;
use guards::Schema;
use heap_model::{FieldId, ObjectId};
use script_declarations::{SchemaFault, SchemaFaultKind, read_schema};
use std::alloc::Global;
use std::io;

const COMMON: &[u8] = b"\
# two objects, each with a field\n\
object o0\n\
\n\
object o1\r\n\
field f0 o0 o1 10\n\
field f1 o1 o0 20";

fn read_text(alloc: Global, text: &[u8]) -> Result<Schema, SchemaFault> {
    let mut reader = text;
    read_schema(alloc, &mut reader)
}

// How many objects and fields a schema has, the object with this name, and the owner, guard and first value of its second field.
type Declared = (u32, u32, Option<ObjectId>, (ObjectId, ObjectId, u64));

fn told_of(schema: &Schema, name: &str) -> Option<Declared> {
    let field = FieldId(1);
    if schema.fields() < 2 {
        return None;
    }
    let row = (
        schema.owner(field),
        schema.guard(field),
        schema.first(field),
    );
    Some((
        schema.objects(),
        schema.fields(),
        schema.object_named(name),
        row,
    ))
}

fn declared(alloc: Global) -> Option<Declared> {
    match read_text(alloc, COMMON) {
        Ok(schema) => {
            let told = told_of(&schema, "o1");
            drop(schema);
            told
        }
        Err(_) => None,
    }
}

#[test]
fn a_schema_file_declares(rt: HostRuntime) {
    let row = (ObjectId(1), ObjectId(0), 20);
    assert!(rt; declared(rt.alloc()) == Some((2, 2, Some(ObjectId(1)), row)));
}

// A text, and the line and the reason for which it is refused.
const REFUSED: &[(&[u8], u64, SchemaFaultKind)] = &[
    (b"", 0, SchemaFaultKind::Empty),
    (b"object a\n\n", 2, SchemaFaultKind::Empty),
    (b"#\nheap\n", 2, SchemaFaultKind::Syntax),
    (b"object a b\n", 1, SchemaFaultKind::Syntax),
    (b"object a\r\n\nobject a\n", 3, SchemaFaultKind::DoubleName),
    (b"object a\nfield f a b 1\n", 2, SchemaFaultKind::Unknown),
    (
        b"object a\ntransient f a b 1\n",
        2,
        SchemaFaultKind::Unknown,
    ),
    (
        b"object a\nfield f a a 1\ntransient f a a 1\n",
        3,
        SchemaFaultKind::DoubleName,
    ),
    (b"object a\ntransient f a a\n", 2, SchemaFaultKind::Syntax),
    (b"object a\n# \xC3\xA9\nheap\n", 2, SchemaFaultKind::NotText),
    (&[b'#'; 201], 1, SchemaFaultKind::TooLong),
];

// Where and why the text is refused, if it is.
fn refusal(alloc: Global, text: &[u8]) -> Option<(u64, SchemaFaultKind)> {
    match read_text(alloc, text) {
        Ok(schema) => {
            drop(schema);
            None
        }
        Err(fault) => Some((fault.line, fault.why)),
    }
}

// The first of these that isn't refused so.
fn first_other(alloc: Global) -> Option<usize> {
    for (place, (text, line, why)) in REFUSED.iter().enumerate() {
        if refusal(alloc, text) != Some((*line, *why)) {
            return Some(place);
        }
    }
    None
}

#[test]
fn schema_files_are_refused_as_documented(rt: HostRuntime) {
    assert!(rt; first_other(rt.alloc()).is_none());
}

// Why a reader that is broken off gives no schema.
fn broken_off(alloc: Global, text: &[u8]) -> Option<(u64, SchemaFaultKind)> {
    let mut reader = Source {
        bytes: text,
        fault: Some((0, io::ErrorKind::Interrupted)),
    };
    match read_schema(alloc, &mut reader) {
        Ok(schema) => {
            drop(schema);
            None
        }
        Err(fault) => Some((fault.line, fault.why)),
    }
}

#[test]
fn a_fault_of_the_reader_is_of_the_line(rt: HostRuntime) {
    let text = b"object a\nfield f a a 1\nfield";
    assert!(rt; broken_off(rt.alloc(), text) == Some((3, SchemaFaultKind::Read)));
}

// Which of three fields are transient.
fn marks_of(schema: &Schema) -> Option<[bool; 3]> {
    if schema.fields() != 3 {
        return None;
    }
    Some([
        schema.transient(FieldId(0)),
        schema.transient(FieldId(1)),
        schema.transient(FieldId(2)),
    ])
}

// The same of this text's.
fn marks(alloc: Global, text: &[u8]) -> Option<[bool; 3]> {
    match read_text(alloc, text) {
        Ok(schema) => {
            let marks = marks_of(&schema);
            drop(schema);
            marks
        }
        Err(_) => None,
    }
}

#[test]
fn a_schema_file_declares_transient_fields(rt: HostRuntime) {
    let text = b"object a\nfield f a a 1\nfield g a a 2\ntransient h a a 3\n";
    assert!(rt; marks(rt.alloc(), text) == Some([false, false, true]));
}

// Whether the schema is read, or there is no memory for it.
fn is_read_or_wanting(alloc: Global) -> bool {
    match refusal(alloc, COMMON) {
        Some((_, why)) => why == SchemaFaultKind::Memory,
        None => true,
    }
}

// With each allocation refused in turn (`rt try --test --fail-alloc N`, by hand; the gate refuses none):
// the schema isn't read then, and the next time it is.
#[test]
fn a_refused_allocation_reads_no_schema(rt: HostRuntime) {
    assert!(rt; is_read_or_wanting(rt.alloc()) && declared(rt.alloc()).is_some());
}

// Whether the fault prints so.
fn is_printed_so(alloc: Global, fault: SchemaFault, text: &str) -> Option<bool> {
    let shown = format!(in alloc; "{fault}").ok()?;
    Some(shown.as_str() == text)
}

#[test]
fn a_schema_fault_prints_as_documented(rt: HostRuntime) {
    let fault = SchemaFault {
        line: 3,
        why: SchemaFaultKind::DoubleName,
    };
    assert!(rt; is_printed_so(rt.alloc(), fault, "line 3: double name") == Some(true));
}
