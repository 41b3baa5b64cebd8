//! What a handle has: a heap, a session, or what is left of one; or a journal.
ghost use Rattle.std.specs.Prelude.{◌≡◌, IfOk};
ghost use Rattle.zelamiku.specs.Ended.{is_ended};
ghost use Rattle.zelamiku.specs.declared.state.Open.TheVariants as kind;

use host_heap::{Closed, HostedHeap, HostedSession, HostedWaiting, Returned, StopWord};
use host_journal::HostJournal;
use std::alloc::{AllocError, Global};

/// What a handle has: one kind of handle serves all.
#[derive(Drop)]
pub enum Open {
    /// Nothing any more.
    Nothing,
    /// A heap that runs.
    Heap(HostedHeap),
    /// A heap that was closed, whose last calls the host is yet to make.
    Closed(Closed),
    /// A heap that has stopped since its host couldn't make a sync: nothing is left of it but the word by which its sessions learn
    /// that. One that was closed had no session, and nothing is left of it.
    Stopped(Option<StopWord>),
    /// A session.
    Session(HostedSession),
    /// A session that waits for a monitor.
    Waiting(HostedWaiting),
    /// What is left of a session that has ended, until its handle is used again or freed.
    Ended(Returned),
    /// A journal, on whose image a heap lies.
    Journal(HostJournal),
}

/// What a handle has, in its box.
#[derive(Drop)]
pub struct Inner {
    pub open: Open,
}

// Each call that moves what a handle has does it by these: to move or to drop the value in place is dear to the prover.
impl Inner {
    /// This in a box of its own, where there is memory.
    pub fn boxed(alloc: Global, content: Open) -> Result<Box<Inner>, AllocError>
        ensures { IfOk result (λ b. b.value ≡ record { «open» = content }) }
    {
        Ok(Box::new(alloc, Inner { open: content })?)
    }

    /// Whether a session has ended there.
    pub fn has_ended(&self) -> bool
        ensures { result ≡ is_ended self.now.open }
    {
        match &self.open {
            Open::Ended(_) => true,
            _ => false,
        }
    }

    /// Takes out what is there, and leaves nothing.
    pub fn take(&mut self) -> Open
        ensures taken { result ≡ self.old.open }
        ensures none { self.new ≡ record { «open» = kind.Nothing } }
    {
        std::mem::replace(&mut self.open, Open::Nothing)
    }

    /// Puts this in the place of what is there.
    pub fn put(&mut self, content: Open)
        ensures { self.new ≡ record { «open» = content } }
    {
        drop(std::mem::replace(&mut self.open, content));
    }
}
