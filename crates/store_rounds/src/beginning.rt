//! The memory of a store that was told nothing.
ghost use Rattle.std.specs.Prelude.{◌≡◌, ◌<◌, ◌≤◌, ℕ, [], length, IfOk};
ghost use Rattle.std.specs.Vec.{vec_capacity};
ghost use Rattle.heap_model.specs.Setting.{Setting};
ghost use Rattle.image_parts.specs.Layout.{IsLayout};
ghost use Rattle.durable.specs.Begin.{HasRows, HaveGuards, HaveLogged, HaveMarks, HaveValues, IsSettingOf};
ghost use Rattle.store_memory.specs.Remembers.{Remembers};
ghost use Rattle.store_memory.specs.Sections.{TellsSections};
ghost use Rattle.heap_model.specs.Past.{no_past};
ghost use Rattle.store_round_memory.specs.Rounds.{KnowsRounds};
ghost use Rattle.store_rounds.specs.Begin.{AreFor, AreGuardsOf};
ghost use Rattle.store_rounds.specs.Store.{HasRoom};

use heap_model::{ObjectId, UndoRecord};
use image::{GuardRow, Layout};
use std::alloc::{AllocError, Global};
use store_memory::{Applied, FieldState, LoggedSections};
use store_round_image::HomeValue;
use store_round_memory::RoundMemory;

/// What was applied, its sections, and what is kept of it.
#[derive(Drop)]
pub(crate) struct Memories {
    pub(crate) applied: Applied,
    pub(crate) sections: LoggedSections,
    pub(crate) rounds: RoundMemory,
}

/// Each field's guard, and room for the cells that wait, for those that a round writes, and for the records of its sections.
#[derive(Drop)]
pub(crate) struct Lists {
    pub(crate) guards: Vec<ObjectId>,
    pub(crate) pending: Vec<HomeValue>,
    pub(crate) cells: Vec<HomeValue>,
    pub(crate) helper: Vec<UndoRecord>,
}

/// All the memory that a store will need.
pub(crate) fn new_memory(
    alloc: Global,
    layout: &Layout,
    threads: u8,
    guards: &[GuardRow],
    heap: &[u64],
    last: u64,
) -> Result<(Memories, Lists), AllocError>
    requires layout { IsLayout layout.now }
    requires rows { HasRows layout.now guards.now }
    requires heap { length heap.now ≡ layout.now.fields }
    requires within { threads ≤ layout.now.lanes }
    ensures applied { (s : Setting) → IsSettingOf layout.now guards.now heap.now last s → IfOk result (λ m. Remembers s m.0.applied no_past) }
    ensures sections { IfOk result (λ m. TellsSections m.0.sections (λ l. 0) []) }
    ensures rounds { (s : Setting) → IsSettingOf layout.now guards.now heap.now last s → IfOk result (λ m. KnowsRounds s m.0.rounds no_past) }
    ensures fits { IfOk result (λ m. AreFor layout.now threads m.0.applied m.0.sections m.0.rounds) }
    ensures guards { IfOk result (λ m. AreGuardsOf guards.now m.1.guards.items) }
    ensures none { IfOk result (λ m. m.1.pending.items ≡ []) }
    ensures room { IfOk result (λ m. HasRoom layout.now 0 (vec_capacity m.1.pending) (vec_capacity m.1.cells) (vec_capacity m.1.helper)) }
{
    let lists = new_lists(alloc, layout, guards)?;
    let memories = new_memories(alloc, layout, threads, guards, heap, last)?;
    Ok((memories, lists))
}

// What is remembered of no records.
fn new_memories(
    alloc: Global,
    layout: &Layout,
    threads: u8,
    guards: &[GuardRow],
    heap: &[u64],
    last: u64,
) -> Result<Memories, AllocError>
    requires layout { IsLayout layout.now }
    requires rows { HasRows layout.now guards.now }
    requires heap { length heap.now ≡ layout.now.fields }
    requires within { threads ≤ layout.now.lanes }
    ensures applied { (s : Setting) → IsSettingOf layout.now guards.now heap.now last s → IfOk result (λ m. Remembers s m.applied no_past) }
    ensures sections { IfOk result (λ m. TellsSections m.sections (λ l. 0) []) }
    ensures rounds { (s : Setting) → IsSettingOf layout.now guards.now heap.now last s → IfOk result (λ m. KnowsRounds s m.rounds no_past) }
    ensures fits { IfOk result (λ m. AreFor layout.now threads m.applied m.sections m.rounds) }
{
    let fields = fields_of(alloc, guards, heap)?;
    let applied = Applied::new(
        alloc,
        threads,
        layout.capacity,
        layout.objects,
        fields,
        last,
    )?;
    let sections = LoggedSections::with_capacity(alloc, threads, layout.capacity)?;
    let rounds = RoundMemory::new(alloc, threads, layout.capacity, layout.objects, heap)?;
    Ok(Memories {
        applied,
        sections,
        rounds,
    })
}

// The guards, and lists with nothing in them.
fn new_lists(alloc: Global, layout: &Layout, guards: &[GuardRow]) -> Result<Lists, AllocError>
    ensures guards { IfOk result (λ m. AreGuardsOf guards.now m.guards.items) }
    ensures none { IfOk result (λ m. m.pending.items ≡ []) }
    ensures room { IfOk result (λ m. HasRoom layout.now 0 (vec_capacity m.pending) (vec_capacity m.cells) (vec_capacity m.helper)) }
{
    let guards = guards_of(alloc, guards)?;
    let pending = Vec::with_capacity(alloc, layout.fields as usize)?;
    let cells = Vec::with_capacity(alloc, layout.fields as usize)?;
    let helper = Vec::with_capacity(alloc, layout.capacity as usize)?;
    Ok(Lists {
        guards,
        pending,
        cells,
        helper,
    })
}

// The guard of each row.
fn guards_of(alloc: Global, guards: &[GuardRow]) -> Result<Vec<ObjectId>, AllocError>
    ensures { IfOk result (λ objects. AreGuardsOf guards.now objects.items) }
{
    let mut objects = Vec::with_capacity(alloc, guards.len())?;
    for row in guards {
        objects.push_reserved(row.guard);
    }
    Ok(objects)
}

// The fields, with their guards and marks, and with these values at home.
fn fields_of(
    alloc: Global,
    guards: &[GuardRow],
    heap: &[u64],
) -> Result<Vec<FieldState>, AllocError>
    requires { length heap.now ≡ length guards.now }
    ensures size { IfOk result (λ fields. length fields.items ≡ length guards.now) }
    ensures guards { IfOk result (λ fields. HaveGuards fields.items guards.now) }
    ensures marks { IfOk result (λ fields. HaveMarks fields.items guards.now) }
    ensures values { IfOk result (λ fields. HaveValues fields.items guards.now heap.now) }
    ensures logged { IfOk result (λ fields. HaveLogged fields.items guards.now heap.now) }
{
    let mut fields = Vec::with_capacity(alloc, guards.len())?;
    for (place, row) in guards.iter().enumerate() {
        fields.push_reserved(FieldState {
            guard: row.guard,
            is_logged: !row.transient,
            value: heap[place],
            logged: heap[place],
        });
    }
    Ok(fields)
}
