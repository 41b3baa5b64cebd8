//! Laws of crashes and recoveries in a script: contracts of functions that do nothing.
ghost use Rattle.script_play.specs.Crashing.{CallLaw, HistoryLaw, RestLaw, ToldLaw};
ghost use Rattle.script_play.specs.Playing.{FormattedLaw, PlayLaw, RecoveredLaw};

/// What is acknowledged survives, from script to script: what `recover` gives and tells after a crash with any fill. With
/// nothing under way it is the heap of the acknowledged sections, of those of the threads' own legal history; at any write
/// or sync of a `log`, `home` or `trim`, that of exactly the sections acknowledged before; of a `settle`, of these or of those
/// that it acknowledges.
pub fn crash_law()
    // After a crash with all writes and syncs ended, `recover` gives the heap of the acknowledged sections and of no
    // others, and tells just these as kept.
    ensures rest { RestLaw }
    // After a crash with all writes and syncs ended, the kept sections are those of the threads' own legal history.
    ensures history { HistoryLaw }
    // A crash at any write or sync of a `log`, `home` or `trim` leaves exactly what was acknowledged before it. One in
    // a `settle` leaves that, or what it acknowledges.
    ensures call { CallLaw }
    // What `settle` tells as acknowledged, `recover` tells as kept after a crash with all writes and syncs ended.
    ensures told { ToldLaw }
{}

/// What is acknowledged survives, over any lines since `format` or `recover`, by the history of the threads' events in them.
///
/// At whichever write or sync of the lines a crash comes, what is recovered is the heap of the sections that were acknowledged by the
/// lines which had ended when it came, or that the `settle` which it cut off was about to acknowledge. However these lines are
/// told apart from the rest, none of the sections that they had acknowledged is lost.
pub fn play_law()
    // After `format` the fields have the values that were declared.
    ensures formatted { FormattedLaw }
    // After `recover` the fields have the values that it told.
    ensures recovered { RecoveredLaw }
    // A crash at any write or sync of any lines leaves the heap of the sections that the ended lines had acknowledged,
    // or that the `settle` which it cut off was about to acknowledge.
    ensures played { PlayLaw }
{}
