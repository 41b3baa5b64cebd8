//! Laws of what recovery keeps of the threads' history, each the contract of a function that does nothing.
ghost use Rattle.law_rounds.specs.Histories.{RoundRunLaw, RoundRunsLaw, ShownAgainLaw};

use crate::laws::{two_syncs_again_law, two_syncs_law};
use law_histories::{log_law, order_law};

/// What a crash leaves of rounds of two syncs is of the threads' history, in whatever order among one another the threads' records
/// came.
pub fn round_run_law()
    // Recovery accepts an image that shows a cut of what threads have logged, by a round of two syncs. It keeps one set of
    // sections, and among them all that was acknowledged. In each legal history that has logged this they are whole, and each has
    // all that it depends on.
    ensures each { RoundRunsLaw }
    // So it is in one history that has logged this.
    ensures history { RoundRunLaw }
{
    two_syncs_law();
    log_law();
    order_law();
}

/// Recovery of such an image that a crash cuts off, or that answers a fault, may be run again.
pub fn round_again_law()
    // Recovery of an image that shows a cut of what threads have logged may be cut off and run again, any number of times:
    // `again_law` of `law_survival` holds of it with the cut that it shows.
    ensures { ShownAgainLaw }
{
    two_syncs_again_law();
}
