//! The calculus of images, as far as clauses can say it. Each law is the contract of a function that does nothing, so that
//! the gate proves it and a crate above may call it.
ghost use Rattle.block_disk.specs.Laws.{AgainLaw, ButLaw, NoneLaw, NowLaw, ReadsLaw, SyncLaw, WiderLaw};

/// What a crash now may leave.
pub fn image_law()
    // What reads is one of the images that a crash may leave now.
    ensures reads { ReadsLaw }
    // An image that a crash may have left since this moment is one that a crash may leave now.
    ensures now { NowLaw }
{}

/// What a crash now may leave, but for the bytes in some ranges.
pub fn image_but_law()
    // Each image is one of those that differ in some ranges at most.
    ensures none { NoneLaw }
    // Another write in the same ranges leaves images that differ in these ranges at most.
    ensures again { AgainLaw }
    // Images that differ in some ranges at most differ in wider ranges at most.
    ensures wider { WiderLaw }
    // Over a device with nothing pending each image is what reads, but for the ranges.
    ensures but { ButLaw }
{}

/// What a sync that succeeds leaves.
pub fn sync_law()
    // A sync leaves images from before it, and no others.
    ensures { SyncLaw }
{}
