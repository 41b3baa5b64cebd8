//! A law of logs, the contract of a function that does nothing.
ghost use Rattle.law_running.specs.Released.{NeededLaw, OlderLaw, ReleasedLaw};

use law_histories::order_law;

/// A whole closed cut of a log is one of each longer log that has of each lane what stands up to the lane's last release, and keeps
/// the same heap there. Both are legal; the lanes' records may come in any order among one another.
///
/// For example, lane 0 took object 0, stored 5 to its field, freed it, took it again and stored 7; the other log has the first three
/// of these and whatever lane 1 did since. The cut of the section that ended is whole in both, and keeps 5 in both, whoever has the
/// object now. Without the third, the release, there would be no section in the other log, and the law doesn't speak of it.
pub fn released_law()
    // A whole, closed cut of a legal log is one of each legal log that has the same lanes up to their last releases. It
    // keeps the same heap there, in whatever order the lanes' records come.
    ensures released { ReleasedLaw }
    // The beginning of a log has of each lane, up to the last release, no more than the whole log has.
    ensures older { OlderLaw }
    // Nothing less would do: a log may have a whole, closed cut that it lacks without its last record, a release.
    ensures needed { NeededLaw }
{
    order_law();
}
