//! A handle that C keeps.
ghost use Rattle.std.specs.Prelude.{◌≡◌, None, Some, IsSome};
ghost use Rattle.std.specs.Coded.{coded_option};
ghost use Rattle.zelamiku.specs.Own.{Held};
ghost use Rattle.zelamiku.specs.contracts.state.Inner as inner;

use crate::loose::Loose;
use crate::state::Inner;
use std::alloc::Global;
use std::marker::Model;

/// Stands for what a handle's pointer leads to.
#[repr(C)]
#[derive(Drop)]
pub struct Opaque {
    nothing: u8,
}

/// Where C keeps what a handle has: the pointer of its box, or null.
#[repr(C)]
#[derive(Drop)]
pub struct Handle {
    at: *mut Opaque,
    alloc: Global,
    pub ghost state: { Held } by { coded_option inner.the_row.coded },
}

impl Model for Handle {
    ghost use Rattle.zelamiku.specs.Own.{handle_owns};

    ghost also_owns = { λ h. handle_owns h.alloc h.at h.state };
}

impl Handle {
    ghost use Rattle.std.specs.Prelude.{◌≡◌, None, Some, IsSome};
    ghost use Rattle.std.specs.Borrow.{sem};
    ghost use Rattle.zelamiku.specs.Lending.{LendsState};

    /// What is in this box.
    pub fn of(state: Loose<Inner, Global>) -> Handle
        ensures { result.state ≡ Some state.value }
    {
        let Loose { at, alloc } = state;
        Handle {
            at: at as *mut Opaque,
            alloc,
        }
    }

    /// Takes out what the handle has. The box is given back by this allocator.
    pub fn take(&mut self, alloc: Global) -> Loose<Inner, Global>
        requires { IsSome self.old.state }
        // What a handle has is taken out whole.
        ensures taken { self.old.state ≡ Some result.value }
        // After it was taken out the handle is empty.
        ensures none { self.new.state ≡ None }
    {
        let at = self.at as *mut Inner;
        self.at = std::ptr::null_mut();
        Loose { at, alloc }
    }

    /// What the handle has, to be worked on where it is.
    pub fn as_mut(&mut self) -> &mut Inner
        requires { IsSome self.old.state }
        // Once the borrow ends the handle has what was left there. All else of the handle is as it was.
        ensures* writes_back { sem 𝓛 (LendsState self.entry result) }
        // What is lent is what the handle has.
        ensures value { self.old.state ≡ Some result.now }
    {
        unsafe { &mut *(self.at as *mut Inner) }
    }
}
