//! A device with empty logs, as `format` and recovery leave it.
ghost use Rattle.std.specs.Prelude.{◌≡◌};
ghost use Rattle.image_parts.specs.Recovered.{IsRecovered};

use crate::guard_row::GuardRow;
use crate::layout::Layout;
use crate::slot::Slot;
use block_disk::Disk;
use std::marker::Model;

/// A device that holds an image with nothing in its logs and nothing pending, and what was read of it. It is what making
/// an image and recovery give, and what a store is adopted from.
#[derive(Drop)]
pub struct Recovered<D: Disk> {
    disk: D,
    layout: Layout,
    guards: Vec<GuardRow>,
    slot: Slot,
    sequence: u64,
    heap: Vec<u64>,
}

impl<D: Disk> Model for Recovered<D> {
    ghost use Rattle.image_parts.specs.Recovered.{IsRecovered, Parts};

    ghost Value = { Parts D };

    ghost view = { λ r. record { disk = r.disk; layout = r.layout; guards = r.guards.items; slot = r.slot; sequence = r.sequence; heap = r.heap.items } };

    ghost invariant = { λ r. IsRecovered (D.device r.disk) r.layout r.guards.items r.slot r.sequence r.heap.items };
}

/// The parts of a [`Recovered`].
#[derive(Drop)]
pub struct RecoveredParts<D> {
    /// The device.
    pub disk: D,
    /// The layout of its image.
    pub layout: Layout,
    /// The guard rows, by field.
    pub guards: Vec<GuardRow>,
    /// The slot of the control that counts.
    pub slot: Slot,
    /// That control's sequence.
    pub sequence: u64,
    /// The values that the fields have at home, by field: a transient one's is its first.
    pub heap: Vec<u64>,
}

impl<D: Disk> Recovered<D> {
    /// The device with what was read of it.
    pub fn of(
        disk: D,
        layout: Layout,
        guards: Vec<GuardRow>,
        slot: Slot,
        sequence: u64,
        heap: Vec<u64>,
    ) -> Recovered<D>
        requires { IsRecovered (D.device disk) layout guards.items slot sequence heap.items }
        ensures { result ≡ record {
          disk = disk;
          layout = layout;
          guards = guards.items;
          slot = slot;
          sequence = sequence;
          heap = heap.items;
        } }
    {
        Recovered {
            disk,
            layout,
            guards,
            slot,
            sequence,
            heap,
        }
    }

    /// The layout of its image.
    pub fn layout(&self) -> Layout
        ensures layout { result ≡ self.now.layout }
        ensures recovered { IsRecovered
            (D.device self.now.disk) result self.now.guards self.now.slot self.now.sequence
            self.now.heap }
    {
        self.layout
    }

    /// The guard rows, by field.
    pub fn guards(&self) -> &[GuardRow]
        ensures guards { result.now ≡ self.now.guards }
        ensures recovered { IsRecovered
            (D.device self.now.disk) self.now.layout result.now self.now.slot self.now.sequence
            self.now.heap }
    {
        &self.guards
    }

    /// The values that the fields have at home, by field: a persistent one's is in its cell, a transient one's is its first.
    pub fn heap(&self) -> &[u64]
        ensures heap { result.now ≡ self.now.heap }
        ensures recovered { IsRecovered
            (D.device self.now.disk) self.now.layout self.now.guards self.now.slot self.now.sequence
            self.now.heap }
    {
        &self.heap
    }

    /// The device alone.
    pub fn into_disk(self) -> D
        ensures disk { result ≡ self.disk }
        ensures recovered { IsRecovered
            (D.device result) self.layout self.guards self.slot self.sequence self.heap }
    {
        self.disk
    }

    /// Its parts.
    pub fn into_parts(self) -> RecoveredParts<D>
        ensures disk { result.disk ≡ self.disk }
        ensures layout { result.layout ≡ self.layout }
        ensures guards { result.guards.items ≡ self.guards }
        ensures slot { result.slot ≡ self.slot }
        ensures sequence { result.sequence ≡ self.sequence }
        ensures heap { result.heap.items ≡ self.heap }
        ensures recovered { IsRecovered
            (D.device result.disk) result.layout result.guards.items result.slot result.sequence
            result.heap.items }
    {
        RecoveredParts {
            disk: self.disk,
            layout: self.layout,
            guards: self.guards,
            slot: self.slot,
            sequence: self.sequence,
            heap: self.heap,
        }
    }
}
