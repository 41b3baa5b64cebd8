//! The graph of the live sections.
ghost use Rattle.std.specs.Prelude.{◌≡◌, ◌<◌, ◌≤◌, All, MatchResult};
ghost use Rattle.dependence.specs.Next.{IsObjectBelow};
ghost use Rattle.recover.specs.Dropping.{acts_in};
ghost use Rattle.recover.specs.Live.{ArePushable, IsGraphOf};
ghost use Rattle.recover_logs.specs.Tables.{log_of};
ghost use Rattle.recover_heap.specs.declared.error.RecoverError.TheVariants.{NoMemory};

use dependence::Graph;
use recover_heap::RecoverError;
use recover_logs::Step;
use std::alloc::Global;

/// The graph of a replay's steps, of so many lanes.
pub fn graph_of(alloc: Global, lanes: u8, steps: &[Step]) -> Result<Graph, RecoverError>
    requires lanes { lanes ≤ 32 }
    requires low { All (λ s. s.lane.0 < lanes) steps.now }
    requires objects { All (λ s. IsObjectBelow 4096 s.entry) steps.now }
    requires next { ArePushable (acts_in (log_of steps.now)) }
    ensures exact { MatchResult result (λ graph. IsGraphOf (log_of steps.now) graph)
        (λ e. e ≡ NoMemory) }
{
    let Ok(mut graph) = Graph::with_capacity(alloc, lanes, steps.len()) else {
        return Err(RecoverError::NoMemory);
    };
    for step in steps {
        graph.push(step.lane, &step.entry);
    }
    Ok(graph)
}
