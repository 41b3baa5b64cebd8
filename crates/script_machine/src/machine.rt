//! The machine that a script's lines are played on.
ghost use Rattle.std.specs.Prelude.{◌≡◌, IfOk, OnErr};
ghost use Rattle.std.specs.Option.{option_map};
ghost use Rattle.script_lines.specs.Orders.{order_of};
ghost use Rattle.script_machine.specs.Images.{image_in};
ghost use Rattle.script_machine.specs.Machine as machine;
ghost use Rattle.script_machine.specs.Machine.{IsStart, Spent, Steps};
ghost use Rattle.script_machine.specs.OfSchema.{IsDiskOf};
ghost use Rattle.script_machine.specs.Phases.{shown};

use crate::answer::Answer;
use crate::down::Down;
use crate::phase::Phase;
use block_disk::MemDisk;
use guards::Schema;
use script_lines::Command;
use std::alloc::{AllocError, Global};
use std::marker::Model;
use std::mem;

/// The machine of a script (docs/SCRIPTS.md): first it declares, then it runs, and between a crash and a recovery it is
/// down.
///
/// After want of memory it is spent: it refuses each further line as `state`.
#[derive(Drop)]
pub struct Machine {
    phase: Phase,
}

impl Model for Machine {
    ghost use Rattle.script_machine.specs.Machine.{MachineState};
    ghost use Rattle.script_machine.specs.Phases.{shown};

    ghost Value = { MachineState };

    ghost view = { λ m. shown m.phase };
}

impl Machine {
    /// A machine with nothing declared.
    pub fn new(alloc: Global) -> Machine
        ensures { IsStart result }
    {
        Machine {
            phase: Phase::new(alloc),
        }
    }

    /// A machine that is down, as after a crash that left this disk. It holds an image of this schema, if it holds one
    /// ([`disk_law`](crate::disk_law)).
    pub fn down(schema: Schema, disk: MemDisk) -> Machine
        requires { IsDiskOf schema disk }
        // A machine may begin down, on a disk with an image of its schema.
        ensures { result ≡ machine.Down (record { schema = schema; disk = disk }) }
    {
        Machine {
            phase: Phase::Down(Down::new(schema, disk)),
        }
    }

    /// What a machine that is down has on its disk. In any other state there is nothing that a crash has left.
    pub fn image(&self) -> Option<&[u8]>
        // What is on the disk of a machine that is down can be had.
        ensures { option_map (λ bytes. bytes.now) result ≡ image_in self.now }
    {
        self.phase.image()
    }

    /// Plays a line, and answers it. A refused line changes nothing. After want of memory the machine is spent.
    pub fn step(&mut self, alloc: Global, command: &Command<'_>) -> Result<Answer, AllocError>
        // A line is refused by the first reason that is met, in the documented order. Else it does what the model's
        // events allow and make (JLS 17.1).
        ensures ok { IfOk result (λ answer. Steps self.old (order_of command.now) answer self.new) }
        ensures err { OnErr result (self.new ≡ Spent) }
    {
        let (phase, answer) = self.take().step(alloc, command)?;
        self.put(phase);
        Ok(answer)
    }

    // Takes the state out, and leaves a machine that is spent. This and the next stand alone, since to move a state in place is
    // dear to the prover.
    fn take(&mut self) -> Phase
        ensures taken { shown result ≡ self.old }
        ensures spent { self.new ≡ Spent }
    {
        mem::replace(&mut self.phase, Phase::Spent)
    }

    // Puts this state in the place of what is there.
    fn put(&mut self, phase: Phase)
        ensures { self.new ≡ shown phase }
    {
        drop(mem::replace(&mut self.phase, phase));
    }
}
