//! The word by which the sessions of a heap learn that it has stopped since a sync of its host failed.
ghost use Rattle.std.specs.Prelude.{◌≡◌, IfOk, IsSome, None, true};
ghost use Rattle.std.specs.Option.{is_some};

use once_cell::race::{Note, OnceBox};
use std::alloc::{AllocError, Global};
use std::marker::Model;
use std::sync::Arc;

/// The word, which a heap and its sessions share, with what this one of them has seen of it. It is written once.
#[derive(Drop)]
pub(crate) struct Stop {
    cell: Arc<OnceBox<bool>>,
    note: Note<bool>,
}

impl Model for Stop {
    ghost use Rattle.std.specs.Prelude.{◌≡◌};
    ghost use Rattle.std.specs.Arc.{arc_value};
    ghost use Rattle.once_cell.specs.Once.{cell_name};
    ghost use Rattle.host_heap.specs.Stopping.{Stopping};

    ghost Value = { Stopping };

    ghost view = { λ s. record { word = s.note.cell; seen = s.note.known } };

    ghost invariant = { λ s. s.note.cell ≡ cell_name (arc_value s.cell) };
}

impl Stop {
    /// A word that isn't written.
    pub fn new(alloc: Global) -> Result<Stop, AllocError>
        ensures { IfOk result (λ s. s.seen ≡ None) }
    {
        let cell = Arc::new(alloc, OnceBox::new(alloc))?;
        let note = cell.note();
        Ok(Stop { cell, note })
    }

    /// The same word, for another.
    pub fn again(&mut self) -> Result<Stop, AllocError>
        ensures other { IfOk result (λ s. s ≡ self.old) }
        ensures same { self.new ≡ self.old }
    {
        let cell = Arc::try_clone(&self.cell)?;
        let note = self.note.again();
        Ok(Stop { cell, note })
    }

    /// Looks whether it is written. Once it is, it stays so.
    pub fn is_written(&mut self) -> bool
        ensures word { self.new.word ≡ self.old.word }
        ensures seen { result ≡ is_some self.new.seen }
        ensures again { IsSome self.old.seen → result ≡ true }
    {
        self.cell.get_as(&mut self.note).is_some()
    }

    // Writes it.
    fn write(&mut self, content: Box<bool>)
        ensures word { self.new.word ≡ self.old.word }
        ensures seen { IsSome self.new.seen }
    {
        let _ = self.cell.set_as(content, &mut self.note);
    }
}

/// The word, for the heap, which alone writes it. What it writes was reserved before, so that no want of memory keeps it from that.
#[derive(Drop)]
pub(crate) struct Stopper {
    stop: Stop,
    reserved: Option<Box<bool>>,
}

impl Model for Stopper {
    ghost use Rattle.std.specs.Prelude.{◌≡◌, IsSome, None};
    ghost use Rattle.host_heap.specs.Stopping.{Stopping};

    ghost Value = { Stopping };

    ghost view = { λ s. s.stop };

    ghost invariant = { λ s. s.reserved ≡ None → IsSome s.stop.seen };
}

impl Stopper {
    /// A word that isn't written.
    pub fn new(alloc: Global) -> Result<Stopper, AllocError>
        ensures { IfOk result (λ s. s.seen ≡ None) }
    {
        let reserved = Some(Box::new(alloc, true)?);
        Ok(Stopper {
            stop: Stop::new(alloc)?,
            reserved,
        })
    }

    /// The word, for a session.
    pub fn for_session(&mut self) -> Result<Stop, AllocError>
        ensures other { IfOk result (λ s. s ≡ self.old) }
        ensures same { self.new ≡ self.old }
    {
        self.stop.again()
    }

    /// Writes it, if that wasn't done.
    pub fn write(&mut self)
        ensures word { self.new.word ≡ self.old.word }
        ensures seen { IsSome self.new.seen }
    {
        if let Some(content) = self.reserved.take() {
            self.stop.write(content);
        }
    }
}
