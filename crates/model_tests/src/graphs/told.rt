//! A graph, and what a test knows of the records that it told it.

ghost use Rattle.std.specs.Prelude.{◌≡◌, ◌<◌, ◌≤◌, ℕ};
ghost use Rattle.heap_model.specs.Cuts.{counts_of};

use crate::graphs::known::{Known, after, of_none};
use dependence::{Dependence, Graph};
use heap_model::{Cut, Lane, Record};
use std::alloc::Global;
use std::marker::Model;

/// A graph that was told what may come next alone. A record that may not come next makes it silent.
#[derive(Drop)]
pub struct Told {
    graph: Graph,
    known: Known,
    is_silent: bool,
}

impl Model for Told {
    ghost use Prim.Native.Nat.{ℕ};
    ghost use Rattle.dependence.specs.Trace.{base_of};
    ghost use Rattle.model_tests.specs.Known.{IsKnown};

    // A caller needs to know nothing of it but that it is one.
    ghost Value = { ℕ };

    ghost view = { λ t. 0 };

    ghost invariant = { λ t. IsKnown (base_of t.graph) t.graph.log t.known.taken t.known.freed t.known.holders t.known.sections };
}

impl Told {
    /// A graph that was told nothing, with room for so many records of so many lanes.
    pub fn of(alloc: Global, lanes: u8, records: usize) -> Option<Told>
        requires { lanes ≤ 32 }
    {
        match Graph::with_capacity(alloc, lanes, records) {
            Ok(graph) => Some(Told {
                graph,
                known: of_none(),
                is_silent: false,
            }),
            Err(_) => None,
        }
    }

    /// Tells the lane's next record.
    pub fn push(&mut self, lane: Lane, record: Record) {
        let entry = record.undo();
        if lane.0 >= self.graph.lanes() || self.graph.room() == 0 {
            self.is_silent = true;
            return;
        }
        match after(self.known, lane, entry) {
            Some(known) => {
                self.graph.push(lane, &entry);
                self.known = known;
            }
            None => self.is_silent = true,
        }
    }

    /// The stable cut, or none where the graph is silent.
    pub fn stable_cut(&mut self) -> Option<Cut> {
        let cut = self.graph.stable_cut();
        if self.is_silent { None } else { Some(cut) }
    }

    /// Why the lane's section is not in the stable cut.
    pub fn reason(&mut self, lane: Lane, section: u64) -> Option<Dependence> {
        self.graph.reason(lane, section)
    }

    /// The number told of the sections on which the last answer decided.
    pub fn last_looks(&self) -> u64 {
        self.graph.last_looks()
    }

    /// Leaves out what is stable, and answers it.
    pub fn forget(&mut self) -> Cut {
        let stable = self.graph.stable_cut();
        self.graph.forget_to(&stable);
        stable
    }

    /// Leaves out what is stable of each lane but this one, and answers it.
    pub fn forget_but(&mut self, lane: Lane) -> Cut
        requires { lane.0 < 32 }
    {
        let part = without(self.graph.stable_cut(), lane);
        self.graph.forget_to(&part);
        part
    }
}

// The cut without the lane's sections.
fn without(cut: Cut, lane: Lane) -> Cut
    requires { lane.0 < 32 }
    ensures { (l : ℕ) → counts_of result l ≤ counts_of cut l }
{
    let mut part = cut;
    part.counts[lane.0 as usize] = 0;
    part
}
