//! Reads the schema that a file declares (docs/SCRIPTS.md, "The program's fault texts").
ghost use Rattle.std.specs.Prelude.{◌≡◌, ◌⊎◌, ◌≤◌, length, IfOk, IfErr, OnOk};
ghost use Rattle.guards.specs.Schema.{field_count, object_count};
ghost use Rattle.script_lines.specs.Lines.{lines_of};
ghost use Rattle.script_lines.specs.Orders as order;
ghost use Rattle.script_lines.specs.Orders.{order_of};
ghost use Rattle.script_declarations.specs.Declares.{Adds, AddsField};
ghost use Rattle.script_declarations.specs.SchemaFiles.{DeclaresLine, DeclaresLines, DeclaresSchema, RefusesAt, RefusesDeclaration, RefusesField, RefusesLine, RefusesSchema};
ghost use Rattle.script_declarations.specs.Telling.{told_of_declared, told_of_text};
ghost use Rattle.script_declarations.specs.declared.schema_fault.SchemaFaultKind.TheVariants as kinds;

use crate::declared::{DeclarationRefusal, Declared};
use crate::declaring::Declaring;
use crate::schema_fault::{SchemaFault, SchemaFaultKind};
use guards::Schema;
use script_lines::{Command, Ending, ScriptErrorKind, cut_line, read_line, read_lines};
use std::alloc::{AllocError, Global};
use std::io::Read;

/// Reads a schema file to its end: the `object`, `field` and `transient` lines of a script, and no others.
///
/// It is refused at the first line that is none of these, that could not be read, that wanted memory, or that a script would refuse.
/// Where nothing else is wrong, and there is no object or no field, it is refused at the last line.
pub fn read_schema<R: Read>(alloc: Global, reader: &mut R) -> Result<Schema, SchemaFault>
    // A schema file declares what a script's machine with these lines would declare.
    ensures ok { IfOk result (DeclaresSchema (R.remaining reader.old) (R.remaining reader.new)) }
    // A schema file is refused at its first line that is none, that is refused, that wants memory or that isn't had; or
    // at its end, where it declares no object or no field.
    ensures refused { IfErr result (RefusesSchema (R.remaining reader.old) (R.remaining reader.new)) }
{
    let (lines, ending) = read_lines(alloc, reader);
    let mut declaring = Declaring::new(alloc);
    let count = match declare_lines(&mut declaring, &lines) {
        Ok(count) => count,
        Err(fault) => {
            drop(declaring);
            return Err(fault);
        }
    };
    let why = match ending {
        Ending::Whole => return close(declaring, count),
        Ending::TooLong => SchemaFaultKind::TooLong,
        Ending::Fault => SchemaFaultKind::Read,
        Ending::NoMemory => SchemaFaultKind::Memory,
    };
    drop(declaring);
    Err(SchemaFault {
        line: count + 1,
        why,
    })
}

// Declares what the lines say, and tells how many there were.
fn declare_lines(declaring: &mut Declaring, lines: &[u8]) -> Result<u64, SchemaFault>
    ensures ok { OnOk result (DeclaresLines declaring.old (lines_of lines.now) declaring.new) }
    ensures count { IfOk result (λ count. count ≡ length (lines_of lines.now)) }
    ensures bound { IfOk result (λ count. count ≤ length lines.now) }
    ensures refused { IfErr result (λ fault. RefusesAt declaring.old (lines_of lines.now) fault) }
{
    let mut rest = lines;
    let mut count = 0u64;
    while !rest.is_empty() {
        let (line, others) = cut_line(rest);
        if let Err(why) = declare_line(declaring, line) {
            return Err(SchemaFault {
                line: count + 1,
                why,
            });
        }
        rest = others;
        count += 1;
    }
    Ok(count)
}

fn declare_line(declaring: &mut Declaring, line: &[u8]) -> Result<(), SchemaFaultKind>
    ensures ok { OnOk result (DeclaresLine declaring.old line.now declaring.new) }
    ensures refused { IfErr result (λ why. RefusesLine declaring.old line.now why) }
{
    match read_line(line) {
        Ok(Some(command)) => declare(declaring, &command),
        Ok(None) => Ok(()),
        Err(kind) => Err(text_fault(kind)),
    }
}

fn declare(declaring: &mut Declaring, command: &Command<'_>) -> Result<(), SchemaFaultKind>
    ensures ok { Adds declaring.old (order_of command.now) declaring.new result }
    ensures refused { IfErr result (RefusesDeclaration declaring.old (order_of command.now)) }
{
    match command {
        Command::Object { name } => declare_object(declaring, name),
        Command::Field {
            name,
            owner,
            guard,
            first,
            is_transient,
        } => declare_field(declaring, name, owner, guard, *first, *is_transient),
        _ => Err(SchemaFaultKind::Syntax),
    }
}

fn declare_object(declaring: &mut Declaring, name: &str) -> Result<(), SchemaFaultKind>
    ensures ok { Adds declaring.old (order.Object name.now) declaring.new result }
    ensures refused { IfErr result (RefusesDeclaration declaring.old (order.Object name.now)) }
{
    added(declaring.object(name))
}

fn declare_field(
    declaring: &mut Declaring,
    name: &str,
    owner: &str,
    guard: &str,
    first: u64,
    is_transient: bool,
) -> Result<(), SchemaFaultKind>
    ensures ok { AddsField declaring.old name.now owner.now guard.now first is_transient declaring.new result }
    ensures refused { RefusesField declaring.old name.now owner.now guard.now first is_transient result }
{
    added(declaring.field(name, owner, guard, first, is_transient))
}

// Whether it was added, and else the fault.
fn added(said: Result<Declared, AllocError>) -> Result<(), SchemaFaultKind>
    ensures { result ≡ told_of_declared said }
{
    match said {
        Ok(Declared::Added) => Ok(()),
        Ok(Declared::Refused(DeclarationRefusal::Empty)) => Err(SchemaFaultKind::Empty),
        Ok(Declared::Refused(DeclarationRefusal::DoubleName)) => Err(SchemaFaultKind::DoubleName),
        Ok(Declared::Refused(DeclarationRefusal::Unknown)) => Err(SchemaFaultKind::Unknown),
        Ok(Declared::Refused(DeclarationRefusal::TooMany)) => Err(SchemaFaultKind::TooMany),
        Err(_) => Err(SchemaFaultKind::Memory),
    }
}

// The schema of what was declared; `last` is the number of the last line.
fn close(declaring: Declaring, last: u64) -> Result<Schema, SchemaFault>
    ensures ok { IfOk result (λ schema. schema ≡ declaring) }
    ensures line { IfErr result (λ fault. fault.line ≡ last) }
    ensures why { IfErr result (λ fault. fault.why ≡ kinds.Empty) }
    ensures empty { IfErr result (λ fault. (object_count declaring ≡ 0) ⊎ (field_count declaring ≡ 0)) }
{
    if declaring.is_empty() {
        return Err(SchemaFault {
            line: last,
            why: SchemaFaultKind::Empty,
        });
    }
    Ok(declaring.build())
}

// A fault of a line's text; a line by itself has none of the last three.
fn text_fault(kind: ScriptErrorKind) -> SchemaFaultKind
    ensures { result ≡ told_of_text kind }
{
    match kind {
        ScriptErrorKind::Syntax => SchemaFaultKind::Syntax,
        ScriptErrorKind::NotText => SchemaFaultKind::NotText,
        ScriptErrorKind::TooLong => SchemaFaultKind::TooLong,
        ScriptErrorKind::Read | ScriptErrorKind::Write => SchemaFaultKind::Read,
        ScriptErrorKind::Memory => SchemaFaultKind::Memory,
    }
}
