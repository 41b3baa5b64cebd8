//! What joins a thread to its heap.
ghost use Rattle.std.specs.Prelude.{Option, None, []};
ghost use Rattle.monitor.specs.Seats.{Home};
ghost use Rattle.session.specs.declared.session.Session.{Session};

use std::marker::Brand;

/// The heap of a thread, and its session as it was opened. It has no values: each run picks the members for each of its threads.
pub trait Joint {
    /// The words of the heap.
    ghost home: { Home };

    /// The thread's session as it began.
    ghost first: { Option Session };
}

impl Joint for Brand {
    ghost home = { record { table = record { words = 0; slots = 0; views_name = 0; atom = 0; block = 0; offset = 0; slot_names = [] }; plan = record { schema = record { objects = []; fields = [] }; first = []; last = 0; lanes = 0 } } };

    ghost first = { None };
}
