//! Laws of recovery and of studies, each the contract of a function that does nothing.
ghost use Rattle.recover.specs.Fits.{StudyLimitsLaw, StudyNumbersLaw};
ghost use Rattle.recover.specs.Study.{TransientFirstLaw};
ghost use Rattle.recover.specs.Recovery.{OneStudyLaw, SameHeapLaw, SameStudyLaw, StudiedLaw};

/// The numbers of an image's study are within the image's limits, so that a text of it can be written.
pub fn study_law()
    // The layout of a study is within the limits of an image.
    ensures limits { StudyLimitsLaw }
    // The numbers of a study's sections are within their limits.
    ensures numbers { StudyNumbersLaw }
{}

/// A transient field begins anew after each recovery: in the heap of a study it has its first value, whatever lies in its
/// home cell.
pub fn transient_law()
    // In each study a transient field has its first value, whatever lies in its cell.
    ensures { TransientFirstLaw }
{}

/// An image that has a study isn't refused. Only the device can fail, or memory run out.
pub fn studied_law()
    // An image that has a study is refused by no study, unless the device fails or memory runs out.
    ensures { StudiedLaw }
{}

/// An image has one study, and so one report.
pub fn one_study_law()
    // An image has one study.
    ensures { OneStudyLaw }
{}

/// Whatever recovery leaves of an image, recovery of that finds the same heap; and it finds and reports all the same until the
/// new control shows, which has nothing logged.
pub fn same_heap_law()
    // Whatever of its images a recovery leaves, another one finds the same heap.
    ensures heap { SameHeapLaw }
    // Until the new control shows, another recovery finds and reports the same as the first. After that it finds
    // nothing logged.
    ensures study { SameStudyLaw }
{}
