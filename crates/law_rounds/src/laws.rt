//! Laws of what recovery gives, each the contract of a function that does nothing.
ghost use Rattle.law_rounds.specs.Laws.{BetweenLaw, HeapLaw, MomentLaw, RoundAgainLaw, RoundLaw};
ghost use Rattle.law_rounds.specs.Worked.{WorkedRound};

use recover::studied_law;

/// Recovery of an image whose live records go on from the heap that it shows.
pub fn recovery_law()
    // Recovery accepts an image that shows a heap with live records that go on from it, and gives that heap.
    ensures { HeapLaw }
{
    studied_law();
}

/// Recovery of an image over a round of two syncs.
pub fn two_syncs_law()
    // Recovery accepts an image over a round of two syncs. It gives the heap that the acknowledged cut keeps, and reports this
    // cut's sections as kept: what the helper's lane has is undone, which puts the kept values into cells that lack them.
    ensures { RoundLaw }
{
    recovery_law();
}

/// Recovery of such an image that a crash cuts off, or that answers a fault, may be run again.
pub fn two_syncs_again_law()
    // Recovery of an image over a round of two syncs may be cut off and run again, any number of times: `again_law` of `law_survival`
    // holds of it with the acknowledged cut.
    ensures { RoundAgainLaw }
{
    two_syncs_law();
}

/// What a crash leaves of rounds of two syncs (`store_round_making`), and what recovery gives of it.
pub fn crashed_round_law()
    // Whatever a crash leaves between rounds of two syncs, recovery accepts it, gives the heap that the acknowledged cut keeps,
    // and reports its sections.
    ensures between { BetweenLaw }
    // Whatever a crash leaves at any moment of a round of two syncs, recovery accepts it, and gives the heap of the cut that
    // was acknowledged before or of the new one.
    ensures moment { MomentLaw }
{
    two_syncs_law();
}

/// There are such rounds: a worked one.
pub fn worked_round_law()
    // A round may keep a section whose guard another thread has taken since, in a section that is open: the helper's section
    // then stands between the two, and at no other number.
    ensures { WorkedRound }
{}
