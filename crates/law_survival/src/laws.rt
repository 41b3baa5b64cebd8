//! Laws of what a store leaves, each the contract of a function that does nothing.
ghost use Rattle.law_survival.specs.Accepted.{AcceptedLaw, CurrentLaw, FoundHeapLaw, FoundLaw, LeftLaw};
ghost use Rattle.law_survival.specs.EachImage.{EachImageLaw, HeldStudyLaw};
ghost use Rattle.law_survival.specs.History.{HistoryLaw};
ghost use Rattle.law_survival.specs.Running.{RunLaw, TakesOnLaw, UnwornLaw};
ghost use Rattle.law_survival.specs.Unsettled.{UnsettledLaw};
ghost use Rattle.law_survival.specs.Sides.{SidesLaw};
ghost use Rattle.law_survival.specs.Upgrade.{OldHistoryLaw};
ghost use Rattle.law_survival.specs.Again.{CurrentOnLaw, HasStudyLaw, KeptAcceptedLaw, KeptAgainLaw, KeptHeapLaw, KeptOnLaw, KeptReportLaw, StudiedOnLaw, TriedLaw, TriesTakeLaw};

use law_histories::{log_law, order_law};
use recover::{one_study_law, studied_law};

/// No image that a store leaves is refused, whatever a crash left of its device, nor is it of an old version. Only the device can
/// fail, and memory be wanting.
pub fn accepted_law()
    // Whatever a crash leaves of a store's device is an image that a store of that past may leave.
    ensures left { LeftLaw }
    // No image that a store leaves is refused, unless the device fails, memory runs out, or the sequence of controls is
    // at its end.
    ensures accepted { AcceptedLaw }
    // Each image that a store leaves is of version 2.
    ensures current { CurrentLaw }
{}

/// What is found in such an image is what the store's past says, and the heap that it stands for is the kept one.
pub fn found_law()
    // What recovery finds in an image that a store left is what the store's past says.
    ensures found { FoundLaw }
    // The heap that recovery finds in an image that a store left is the one that its past keeps.
    ensures heap { FoundHeapLaw }
{}

/// Calls with no settling leave nothing but what was acknowledged before the first of them: neither less nor more.
pub fn unsettled_law()
    // Calls with no settling, of a store that hadn't failed in one before, leave exactly what was acknowledged before
    // them.
    ensures { UnsettledLaw }
{}

/// The moment at which a call of a run had been made parts the run in two: each crash came by then, or since.
pub fn sides_law()
    // What a crash left in a run, it left either up to a moment between, or since then.
    ensures { SidesLaw }
{}

/// What survives is of the threads' history: where the calls apply what a legal history logs, each thread's records in their
/// order and the threads among one another in any that the store allows, the sections that were kept are whole ones of the
/// history, each with all that it depends on there, and the heap is that of their stores in the history's order.
pub fn history_law()
    // What survives of calls that apply a legal history, in whatever allowed order, is the history's heap.
    ensures { HistoryLaw }
{
    log_law();
    order_law();
}

/// What survives of a heap of version 1 is of the threads' history: where its store had applied, thread by thread, a beginning of
/// what a legal history logs, the heap that an upgrade gives is that of the kept sections' stores in the history's order.
pub fn old_history_law()
    // Where the store of version 1 had applied, thread by thread, the beginning of what a legal history logs, the
    // upgraded heap is that of the history.
    ensures { OldHistoryLaw }
{
    log_law();
    order_law();
}

/// What a crash leaves of a run is of the threads' history: whoever made the calls, and at whatever moment it came, recovery takes the
/// image, and the sections that it keeps are whole ones of the history, each with all that it depends on there.
pub fn run_law()
    // Whatever a crash left at any moment of any run of store calls, recovery accepts it. It keeps whole, closed
    // sections of the threads' history, and among them all that was acknowledged before the run.
    ensures { RunLaw }
{
    log_law();
    order_law();
    has_study_law();
}

/// No run wears the control out by itself: what calls take of its sequences adds up, whoever made them one after another, and a crash
/// leaves an image that recovery refuses as worn only where the control began within so many of its last sequence.
pub fn sequence_law()
    // The sequences that calls take, made one after another, add up.
    ensures on { TakesOnLaw }
    // A crash leaves of a store that hadn't failed no image that is refused as worn, unless the control began within so
    // many of its last sequence.
    ensures unworn { UnwornLaw }
{}

/// Each image that a store leaves, or a recovery on the way, has a study. So whatever is said of a study of such an image is said
/// of one that is there.
pub fn has_study_law()
    // Each image that a store leaves has a study.
    ensures { HasStudyLaw }
{}

/// Recovery that a crash cuts off, or that answers a fault, may be run again, any number of times, and so may an upgrade, also
/// of an image that a store of version 1 left: each time it takes the image, finds the kept heap, reports the acknowledged
/// sections until a try has ended, and leaves only images of which the same may be said. Until then all else that it reports is
/// what the first try does: what is dropped, why, and how many fields take an old value back. No try makes an image old, or takes
/// more than one sequence of the control.
pub fn again_law()
    // Recovery of an image that a store, or a try on the way, left finds the kept heap.
    ensures heap { KeptHeapLaw }
    // Recovery of an image that a store, or a try on the way, left reports the acknowledged sections as kept, or that a
    // recovery has ended.
    ensures report { KeptReportLaw }
    // No image that a store, or a try on the way, left is refused, unless the device fails, memory runs out, or the
    // sequence is at its end.
    ensures accepted { KeptAcceptedLaw }
    // Wherever a recovery of an image that a store left ends, it leaves images of the same kind, so that it may be run
    // again.
    ensures again { KeptAgainLaw }
    // So many tries of an image leave one that so many tries may leave.
    ensures on { KeptOnLaw }
    // Tries never make an image one of version 1.
    ensures current { CurrentOnLaw }
    // However often an image is tried, each try finds and reports what the first one does, with each dropped section's
    // reason and the number of fields that take an old value back.
    ensures tried { TriedLaw }
    // Each image on the way from one that has a study has one too.
    ensures studied { StudiedOnLaw }
    // A try takes one of the control's sequences at most.
    ensures sequences { TriesTakeLaw }
{
    one_study_law();
    studied_law();
}

/// Any bytes have a study, or are refused by a reason of their own, which neither a fault nor want of memory is: there are none
/// with neither. An image that nothing is wrong with has a study.
pub fn each_image_law()
    // An image that nothing is wrong with has a study.
    ensures held { HeldStudyLaw }
    // Any bytes have a study, or a reason of their own refuses them, which neither a fault nor want of memory is.
    ensures each { EachImageLaw }
{}
