//! Rounds of two syncs after those of a store.
ghost use Rattle.store_round_making.specs.Joining.{JoinLaw};

/// The first round of two syncs may follow what a store's own steps have made of a device: its pending cells are those of fields to
/// which live records store.
pub fn join_law()
    // A store's device, of which all that is acknowledged was trimmed, is as a round of two syncs wants it.
    ensures { JoinLaw }
{}
