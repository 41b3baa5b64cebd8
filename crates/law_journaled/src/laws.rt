//! Laws of a hosted heap over a journal, each the contract of a function that does nothing.
ghost use Rattle.law_journaled.specs.Kept.{JournalAcknowledgedLaw, JournalBegunLaw, JournalClosedLaw, JournalClosingLaw};
ghost use Rattle.law_journaled.specs.Kept.{JournalOpeningLaw, JournalRoundLaw, JournalRunLaw, JournalSafeLaw};
ghost use Rattle.law_journaled.specs.Left.{HostLeavesLaw, JournalLeftLaw};
ghost use Rattle.law_journaled.specs.Steps.{GivenFaultLaw, GivenFirstLaw, GivenOpenedLaw, GivenOrderLaw, GivenSyncLaw, GivenWriteLaw};

use host_journal::HostJournal;
use law_hosted::{host_law, running_law};

/// A host that gives a journal just the calls of its heap's disk, in order, meets the premise of the other laws (`LiesOver`).
/// - `opened`: it does so when the journal was opened, and then a heap from the first of the bytes that the journal holds;
/// - `first`: it does so of any new journal, or one just after a sync, if the journal reads what the host's calls leave;
/// - `write`, `order`, `sync`: a call that the journal takes is made; a sync may also count as made later, when it is given again;
/// - `fault`: an order or a sync that fails leaves what the journal was given. So does a write that fails (`host_journal`: `HasWritten`).
pub fn given_law()
    ensures opened { GivenOpenedLaw }
    ensures first { GivenFirstLaw }
    ensures write { GivenWriteLaw }
    ensures order { GivenOrderLaw }
    ensures sync { GivenSyncLaw }
    ensures fault { GivenFaultLaw }
{}

/// What a crash of the device below a journal leaves, as long as that device keeps sectors whole: now, or at any moment of the next order
/// or sync, whatever that answers.
///
/// That device is here what the journal's own calls make of it. The host makes these after the order or the sync that hands them over. So
/// until it has made all of them, a crash comes at some moment of that order or sync. `host_journal` says what a crash leaves of a
/// journal's own opening or making (`IsOpened`, `IsMade`: `left`).
pub fn left_law(journal: &HostJournal)
    // What a crash leaves of the device below a journal, at rest or at any moment of an order or a sync, stands for an
    // image that a crash of the host's device might have left without a journal, at some moment since the journal's last
    // sync.
    ensures left { JournalLeftLaw journal.now }
    // A host's device leaves such an image, after all syncs that the host had made by the journal's last sync. So laws of
    // a host's device speak of it.
    ensures host { HostLeavesLaw }
{
    journal.possible_law();
}

/// What a crash of the device below a journal keeps of the journal's heap, at each moment of which `left_law` speaks. The host gives the
/// journal just the calls of its heap's disk, in order.
/// - `opening`: while the host makes the calls by which a heap was opened or upgraded, the bytes that there were, or the same heap;
/// - `begun`: since the heap was opened; `acknowledged`: since a count of sections was told as acknowledged; `any_moment` is the general
///   case: since any moment at which the store had a past;
/// - `run`, `round`, `closing`: while threads run, whole sections of their history;
/// - `closed`: all sections, once the journal was synced after a closing.
pub fn journal_law(journal: &HostJournal)
    // Once a journal has synced with the calls that had been handed over before a run of the store, and the host has made
    // the journal's calls for that, whatever a crash leaves of the device below keeps what was acknowledged then.
    ensures any_moment { JournalSafeLaw journal.now }
    // While the host gives a journal the calls by which a heap was opened or upgraded, a crash of the device below leaves
    // what stands for the bytes that there were, or for an image on recovery's way with the same heap.
    ensures opening { JournalOpeningLaw journal.now }
    // Once a journal has synced with the calls by which a heap was made or opened, and the host has made the journal's
    // calls for that, recovery accepts whatever a crash leaves of the device below.
    ensures begun { JournalBegunLaw journal.now }
    // A count of sections was acknowledged. Once the journal has synced with the calls handed over by then, and the host
    // has made the journal's calls for that, no later crash of the device below loses these. Recovery accepts whatever the
    // crash leaves, and keeps at least so many sections of the lane.
    ensures acknowledged { JournalAcknowledgedLaw journal.now }
    // While threads run, whatever a crash leaves of the device below a journal keeps whole sections of the threads'
    // history, each with all that it depends on. It keeps all that was acknowledged by a moment, once the journal has
    // synced with the calls handed over by then, and the host has made the journal's calls for that.
    ensures run { JournalRunLaw journal.now }
    // So it does after a round of the heap, for the history that the helper has seen by then.
    ensures round { JournalRoundLaw journal.now }
    // So it does at whatever moment of the calls of a closing, for the closing's history.
    ensures closing { JournalClosingLaw journal.now }
    // Once a journal has synced with all calls of a closing, and the host has made the journal's calls for that, recovery
    // accepts whatever a crash leaves of the device below. It stands for the heap of the closing's history with all its
    // sections.
    ensures closed { JournalClosedLaw journal.now }
{
    journal.possible_law();
    host_law();
    running_law();
}
