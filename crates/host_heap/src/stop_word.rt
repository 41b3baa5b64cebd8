//! The word of a heap that was let go.

use crate::stop::Stopper;
use std::marker::Model;

/// The word by which the sessions of a heap learn that it has stopped, once the heap itself was let go
/// ([`HostedHeap::into_stop_word`](crate::HostedHeap::into_stop_word)).
#[derive(Drop)]
pub struct StopWord {
    pub(crate) stopper: Stopper,
}

impl Model for StopWord {
    ghost use Rattle.host_heap.specs.Stopping.{Stopping};

    ghost Value = { Stopping };

    ghost view = { λ w. w.stopper };
}
