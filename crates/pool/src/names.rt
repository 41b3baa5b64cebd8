//! The names of a pool's fields.

ghost use Rattle.std.specs.Prelude.{◌≡◌, ◌≢◌, ◌<◌, ◌↔◌, ◌++◌, ℕ, List, IsTrue, MatchOption, IfOk, codes, decimal, string_bytes};
ghost use Rattle.guards.specs.Schema.{names_of};
ghost use Rattle.pool.specs.LaidOut.{cell_name, NamesACell};
ghost use Rattle.pool.specs.Names.{IsCell, IsCellName, IsRest};

use guards::SchemaBuilder;
use heap_model::FieldId;
use itoa::Buffer;
use std::alloc::{AllocError, Global};

/// What tells the head's field from those of the slots.
pub(crate) const HEAD: &str = "head";

/// The name of the pool's field that has this name of its own.
pub(crate) fn spell(alloc: Global, name: &str, cell: &str) -> Result<String, AllocError>
    ensures { IfOk result (λ text. string_bytes text ≡ cell_name name.now cell.now) }
{
    let mut text = String::from_str(alloc, name)?;
    text.push_str(".")?;
    text.push_str(cell)?;
    Ok(text)
}

/// Whether a field is declared that has one of the pool's names. It takes no memory.
pub(crate) fn names_a_cell(builder: &SchemaBuilder, name: &str, slots: u32) -> bool
    ensures { IsTrue result ↔ NamesACell (names_of builder.now.fields) name.now slots }
{
    for number in 0..builder.fields() {
        if is_cell_name(builder.field_name(FieldId(number)), name, slots) {
            return true;
        }
    }
    false
}

// Whether it is the name of one of the pool's fields.
fn is_cell_name(text: &str, name: &str, slots: u32) -> bool
    ensures { IsTrue result ↔ IsCellName name.now slots text.now }
{
    let Some(rest) = rest_after(text, name) else {
        return false;
    };
    let Some(cell) = rest_after(rest, ".") else {
        return false;
    };
    cell == HEAD || is_slot(cell, slots)
}

// Whether it is the number of a slot, as numbers are printed.
fn is_slot(cell: &str, slots: u32) -> bool
    ensures { IsTrue result ↔ (s : ℕ) × (s < slots) × (cell.now ≡ decimal s) }
{
    let Ok(slot) = cell.parse::<u32>() else {
        return false;
    };
    slot < slots && Buffer::new().format(slot) == cell
}

// What follows the prefix.
fn rest_after<'a>(text: &'a str, prefix: &str) -> Option<&'a str>
    ensures { IsRest text.now prefix.now result }
{
    text.strip_prefix(prefix)
}
