//! A place for a handle.
ghost use Rattle.std.specs.Prelude.{◌≡◌, ◌↔◌, None, Some, IsTrue, IsSome, OnErr, OnOk};
ghost use Rattle.zelamiku.specs.Handles.{holding};
ghost use Rattle.zelamiku.specs.Ended.{still_held};

use crate::handle::Handle;
use crate::loose::Loose;
use crate::state::{Inner, Open};
use std::alloc::{AllocError, Global};

/// A handle, as C keeps it: the pointer, and whether the handle is in use.
#[repr(C)]
pub struct Slot {
    pub(crate) handle: Handle,
    is_open: bool,
    ghost agrees: { IsTrue is_open ↔ IsSome handle.state },
}

impl Slot {
    /// Whether it is in use.
    pub fn is_open(&self) -> bool
        // A handle is in use exactly where it isn't empty.
        ensures { IsTrue result ↔ IsSome self.now.handle.state }
    {
        self.is_open
    }
}

/// Lets go of what the handle has.
pub fn let_go(alloc: Global, place: &mut Slot)
    // A handle that is let go of is empty.
    ensures { place.new.handle.state ≡ None }
{
    if !place.is_open {
        return;
    }
    let there = place.handle.take(alloc);
    place.is_open = false;
    drop(there.into_box());
}

/// Whether the handle is in use, where something is to be opened there. What is left of a session that has ended is let go.
pub fn is_taken(alloc: Global, place: &mut Slot) -> bool
    ensures still { place.new.handle.state ≡ still_held place.old.handle.state }
    ensures told { IsTrue result ↔ IsSome place.new.handle.state }
{
    if !place.is_open() {
        return false;
    }
    if !place.handle.as_mut().has_ended() {
        return true;
    }
    let_go(alloc, place);
    false
}

// What one thread may hand to another.
fn sendable<T: Send>(value: T) -> T
    ensures { result ≡ value }
{
    value
}

/// Puts it into the handle. What the handle had is let go.
pub fn put(alloc: Global, place: &mut Slot, state: Box<Inner>)
    // What a handle has is what was put there.
    ensures { place.new.handle.state ≡ Some state.value }
{
    let_go(alloc, place);
    place.handle = Handle::of(Loose::of(sendable(state)));
    place.is_open = true;
}

/// Puts something new into the handle, where there is memory for its box.
pub fn put_new(alloc: Global, place: &mut Slot, content: Open) -> Result<(), AllocError>
    ensures ok { OnOk result (place.new.handle.state ≡ holding content) }
    ensures err { OnErr result (place.new.handle.state ≡ place.old.handle.state) }
{
    let state = Inner::boxed(alloc, content)?;
    put(alloc, place, state);
    Ok(())
}
