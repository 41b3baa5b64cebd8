//! A pool in fields that have numbers alone, as a host declares them.

ghost use Rattle.std.specs.Prelude.{◌≡◌, ◌≤◌};
ghost use Rattle.pool.specs.Numbered.{FreeLaw, cell_first};

use crate::laying_out::link_after;
use crate::pool::Pool;
use heap_model::{FieldId, MOST_FIELDS};

impl Pool {
    ghost use Rattle.pool.specs.Numbered.{IsPoolAt};

    /// The pool whose head is kept in this field, and its slots in those that follow: where a heap may have so many fields.
    pub fn in_fields(head: FieldId, slots: u32) -> Option<Pool>
        // A pool in numbered fields is that of the head and the slots named, exactly where a heap may have so many
        // fields.
        ensures { IsPoolAt head.0 slots result }
    {
        if head.0 as usize + slots as usize >= MOST_FIELDS {
            return None;
        }
        Some(Pool::at(head, slots))
    }
}

/// The value with which a field of a pool of so many slots begins: cell 0 is the head's, and cell s + 1 that of slot s.
pub fn first_value(slots: u32, cell: u32) -> u64
    requires { cell ≤ slots }
    // The answer is the value with which the cell begins.
    ensures { result ≡ cell_first slots cell }
{
    if cell == 0 {
        1
    } else {
        link_after(cell - 1, slots)
    }
}

/// A law of the values with which a pool's fields begin: the contract of a function that does nothing.
pub fn free_law()
    ensures free { FreeLaw }
{}
