//! Pools in a plain row of cells.

ghost use Rattle.std.specs.Prelude.{◌<◌, ◌≤◌};
ghost use Rattle.pool.specs.declared.pool.TheConstants.{MOST_SLOTS};

use crate::pool_heap::{declare, first_values};
use heap_model::FieldId;
use pool::{Cells, MOST_SLOTS, Pool};
use std::alloc::Global;

/// A row of values. The cell `broken` can't be loaded, and where the row is stuck nothing can be stored.
#[derive(Drop)]
pub struct Row {
    pub values: Vec<u64>,
    pub broken: u32,
    pub stuck: bool,
}

impl Cells for Row {
    ghost use Rattle.pool.specs.Knowledge.{Reads, Stores, FailsToLoad, FailsToStore};
    ghost use Rattle.session_tests.specs.Rows.{row_knows};

    type Fault = ();

    ghost knows = { λ row. row_knows row.values.items row.broken row.stuck };

    ghost keeps = { λ before after done. Unit {0} };

    fn load(&mut self, field: FieldId) -> Result<u64, ()> {
        if field.0 == self.broken {
            return Err(());
        }
        let place = field.0 as usize;
        if place >= self.values.len() {
            return Err(());
        }
        Ok(self.values[place])
    }

    fn store_two(&mut self, first: FieldId, one: u64, second: FieldId, two: u64) -> Result<(), ()> {
        if self.stuck {
            return Err(());
        }
        let place = first.0 as usize;
        if place >= self.values.len() {
            return Err(());
        }
        let other = second.0 as usize;
        if other >= self.values.len() {
            return Err(());
        }
        self.values[place] = one;
        self.values[other] = two;
        Ok(())
    }

    ghost keeps_both = { λ a b c d e x y. tt };
}

/// No cell is broken.
pub const WHOLE: u32 = u32::MAX;

/// A pool that a schema declares with nothing else, and a row of the values with which its fields begin.
pub fn laid_out(alloc: Global, slots: u32) -> Option<(Pool, Row)>
    requires some { 0 < slots }
    requires few { slots ≤ MOST_SLOTS }
{
    let (schema, pool) = declare(alloc, slots)?;
    let found = first_values(alloc, &schema);
    drop(schema);
    let values = found.ok()?;
    let row = Row {
        values,
        broken: WHOLE,
        stuck: false,
    };
    Some((pool, row))
}
