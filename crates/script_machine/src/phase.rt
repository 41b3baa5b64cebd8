//! The states of the machine, and the lines that each takes.
ghost use Rattle.std.specs.Prelude.{◌≡◌, ◌≤◌, ◌↔◌, IfOk, IfSome, IsSome};
ghost use Rattle.std.specs.Option.{option_map};
ghost use Rattle.guards.specs.Schema.{nothing};
ghost use Rattle.script_lines.specs.Orders.{order_of, step_of};
ghost use Rattle.script_lines.specs.Orders as order;
ghost use Rattle.script_machine.specs.Answering.{Advances, CrashesRunning, FormatsDeclared, RecoversAny, RecoversDown};
ghost use Rattle.script_machine.specs.Images.{image_in};
ghost use Rattle.script_machine.specs.Limits.{IsFormattable};
ghost use Rattle.script_machine.specs.Machine as machine;
ghost use Rattle.script_machine.specs.Phases.{shown};
ghost use Rattle.script_machine.specs.declared.answer.Refusal.TheVariants as why;

use crate::answer::{Answer, Refusal};
use crate::down::Down;
use crate::opening::{format_store, restore};
use crate::refusals::answered;
use crate::running::Running;
use block_disk::Fill;
use heap_model::{LAST_NUMBER, Lane};
use image::Layout;
use recover::Versions;
use script_declarations::Declaring;
use script_lines::{Command, Step};
use script_monitors::Monitors;
use std::alloc::{AllocError, Global};

/// The state of the machine.
#[derive(Drop)]
pub(crate) enum Phase {
    /// Objects and fields are declared.
    Declaring(Declaring),
    /// Threads step.
    Running(Running),
    /// The device has crashed.
    Down(Down),
    /// Memory was wanting.
    Spent,
}

impl Phase {
    /// Nothing is declared.
    pub(crate) fn new(alloc: Global) -> Phase
        ensures { shown result ≡ machine.Declaring nothing }
    {
        Phase::Declaring(Declaring::new(alloc))
    }

    /// What the device has, while it is down.
    pub(crate) fn image(&self) -> Option<&[u8]>
        ensures { option_map (λ bytes. bytes.now) result ≡ image_in (shown self.now) }
    {
        match self {
            Phase::Down(down) => Some(down.image()),
            _ => None,
        }
    }

    /// Plays a line: the state after it, and the answer.
    pub(crate) fn step(
        self,
        alloc: Global,
        command: &Command<'_>,
    ) -> Result<(Phase, Answer), AllocError>
        ensures { Advances self (order_of command.now) result }
    {
        match command {
            Command::Object { name } => self.object(name),
            Command::Field {
                name,
                owner,
                guard,
                first,
                is_transient,
            } => self.field(name, owner, guard, *first, *is_transient),
            Command::Format { lanes, capacity } => self.format(alloc, *lanes, *capacity),
            Command::Step { thread, step } => self.thread_step(alloc, *thread, step),
            Command::Log => self.log(),
            Command::Home => self.home(),
            Command::Settle => self.settle(alloc),
            Command::Trim => self.trim(),
            Command::Heap => self.heap(alloc),
            Command::Crash { fill, back } => self.crash(*fill, *back),
            Command::Show => self.show(alloc),
            Command::Recover => self.recover(alloc, Versions::Current),
            Command::Upgrade => self.recover(alloc, Versions::Both),
        }
    }

    // The line doesn't belong to this state.
    fn refuse(self) -> (Phase, Answer)
        ensures { machine.Refuses (shown self) result.1 (shown result.0) why.State }
    {
        (self, Answer::Refused(Refusal::State))
    }

    fn object(self, name: &str) -> Result<(Phase, Answer), AllocError>
        ensures { Advances self (order.Object name.now) result }
    {
        match self {
            Phase::Declaring(mut declaring) => {
                match declaring.object(name) {
                    Ok(said) => Ok((Phase::Declaring(declaring), answered(said))),
                    Err(why) => {
                        drop(declaring);
                        Err(why)
                    }
                }
            }
            other => Ok(other.refuse()),
        }
    }

    fn field(
        self,
        name: &str,
        owner: &str,
        guard: &str,
        first: u64,
        is_transient: bool,
    ) -> Result<(Phase, Answer), AllocError>
        ensures { Advances self (order.Field name.now owner.now guard.now first is_transient) result }
    {
        match self {
            Phase::Declaring(mut declaring) => {
                match declaring.field(name, owner, guard, first, is_transient) {
                    Ok(said) => Ok((Phase::Declaring(declaring), answered(said))),
                    Err(why) => {
                        drop(declaring);
                        Err(why)
                    }
                }
            }
            other => Ok(other.refuse()),
        }
    }

    fn format(self, alloc: Global, lanes: u64, capacity: u64) -> Result<(Phase, Answer), AllocError>
        ensures { Advances self (order.Format lanes capacity) result }
    {
        match self {
            Phase::Declaring(declaring) => format_declared(alloc, declaring, lanes, capacity),
            other => Ok(other.refuse()),
        }
    }

    fn thread_step(
        self,
        alloc: Global,
        thread: Lane,
        step: &Step<'_>,
    ) -> Result<(Phase, Answer), AllocError>
        ensures { Advances self (order.Act thread (step_of step.now)) result }
    {
        match self {
            Phase::Running(mut running) => {
                match running.step(alloc, thread, step) {
                    Ok(answer) => Ok((Phase::Running(running), answer)),
                    Err(why) => {
                        drop(running);
                        Err(why)
                    }
                }
            }
            other => Ok(other.refuse()),
        }
    }

    fn log(self) -> Result<(Phase, Answer), AllocError>
        ensures { Advances self order.Log result }
    {
        match self {
            Phase::Running(running) => {
                let (running, answer) = running.log()?;
                Ok((Phase::Running(running), answer))
            }
            other => Ok(other.refuse()),
        }
    }

    fn home(self) -> Result<(Phase, Answer), AllocError>
        ensures { Advances self order.Home result }
    {
        match self {
            Phase::Running(running) => {
                let (running, answer) = running.home()?;
                Ok((Phase::Running(running), answer))
            }
            other => Ok(other.refuse()),
        }
    }

    fn settle(self, alloc: Global) -> Result<(Phase, Answer), AllocError>
        ensures { Advances self order.Settle result }
    {
        match self {
            Phase::Running(running) => {
                let (running, answer) = running.settle(alloc)?;
                Ok((Phase::Running(running), answer))
            }
            other => Ok(other.refuse()),
        }
    }

    fn trim(self) -> Result<(Phase, Answer), AllocError>
        ensures { Advances self order.Trim result }
    {
        match self {
            Phase::Running(running) => {
                let (running, answer) = running.trim()?;
                Ok((Phase::Running(running), answer))
            }
            other => Ok(other.refuse()),
        }
    }

    fn heap(self, alloc: Global) -> Result<(Phase, Answer), AllocError>
        ensures { Advances self order.Heap result }
    {
        match self {
            Phase::Running(running) => {
                match running.heap(alloc) {
                    Ok(answer) => Ok((Phase::Running(running), answer)),
                    Err(why) => {
                        drop(running);
                        Err(why)
                    }
                }
            }
            other => Ok(other.refuse()),
        }
    }

    fn crash(self, fill: Fill, back: u64) -> Result<(Phase, Answer), AllocError>
        ensures { Advances self (order.Crash fill back) result }
    {
        match self {
            Phase::Running(running) => crash_running(running, fill, back),
            other => Ok(other.refuse()),
        }
    }

    fn show(self, alloc: Global) -> Result<(Phase, Answer), AllocError>
        ensures { Advances self order.Show result }
    {
        match self {
            Phase::Down(mut down) => {
                match down.show(alloc) {
                    Ok(answer) => Ok((Phase::Down(down), answer)),
                    Err(why) => {
                        drop(down);
                        Err(why)
                    }
                }
            }
            other => Ok(other.refuse()),
        }
    }

    // Recovers the device, if its image is of one of these versions.
    fn recover(self, alloc: Global, versions: Versions) -> Result<(Phase, Answer), AllocError>
        ensures { RecoversAny versions self result }
    {
        match self {
            Phase::Down(down) => recover_down(alloc, down, versions),
            other => Ok(other.refuse()),
        }
    }
}

// Formats an image for what was declared. The limits are tested before the schema is closed, which can't be undone.
fn format_declared(
    alloc: Global,
    declaring: Declaring,
    lanes: u64,
    capacity: u64,
) -> Result<(Phase, Answer), AllocError>
    ensures { FormatsDeclared declaring lanes capacity result }
{
    if declaring.is_empty() {
        return Ok((Phase::Declaring(declaring), Answer::Refused(Refusal::Empty)));
    }
    let Some((lanes, capacity)) = format_numbers(lanes, capacity) else {
        return Ok((
            Phase::Declaring(declaring),
            Answer::Refused(Refusal::BadHeader),
        ));
    };
    let schema = declaring.build();
    let (store, size) = match format_store(alloc, &schema, lanes, capacity) {
        Ok(made) => made,
        Err(why) => {
            drop(schema);
            return Err(why);
        }
    };
    let monitors = match Monitors::new(alloc, schema, LAST_NUMBER, lanes) {
        Ok(monitors) => monitors,
        Err(why) => {
            drop(store);
            return Err(why);
        }
    };
    let running = Running::new(monitors, store);
    Ok((Phase::Running(running), Answer::Formatted(size)))
}

// Crashes the device with all but the last `back` writes and syncs ended and the next begun.
fn crash_running(running: Running, fill: Fill, back: u64) -> Result<(Phase, Answer), AllocError>
    ensures { CrashesRunning running fill back result }
{
    match running.crash_image(fill, back) {
        Ok(Some(disk)) => {
            let down = Down::new(running.into_schema(), disk);
            Ok((Phase::Down(down), Answer::Crashed))
        }
        Ok(None) => Ok((Phase::Running(running), Answer::Refused(Refusal::Back))),
        Err(why) => {
            drop(running);
            Err(why)
        }
    }
}

// Recovers the device that a crash left, if its image is of one of these versions.
fn recover_down(
    alloc: Global,
    down: Down,
    versions: Versions,
) -> Result<(Phase, Answer), AllocError>
    ensures { RecoversDown versions down result }
{
    let (schema, disk) = down.into_parts();
    match restore(alloc, disk, versions) {
        Ok(Ok((store, report))) => {
            let lanes = store.layout().lanes;
            match Monitors::with_values(alloc, schema, LAST_NUMBER, lanes, &report.heap) {
                Ok(monitors) => {
                    let running = Running::new(monitors, store);
                    Ok((Phase::Running(running), Answer::Recovered(report)))
                }
                Err(why) => {
                    drop(store);
                    drop(report);
                    Err(why)
                }
            }
        }
        Ok(Err((disk, why))) => {
            let down = Down::new(schema, disk);
            Ok((Phase::Down(down), Answer::Refused(why)))
        }
        Err(why) => {
            drop(schema);
            Err(why)
        }
    }
}

// The numbers of an image that may have so many lanes, and room for so many records in each.
fn format_numbers(lanes: u64, capacity: u64) -> Option<(u8, u32)>
    ensures limits { IsSome result ↔ IsFormattable lanes capacity }
    ensures same { IfSome result (λ numbers. (numbers.0 ≡ lanes) × (numbers.1 ≡ capacity) × (numbers.0 ≤ 32)) }
{
    let (Ok(lanes), Ok(capacity)) = (u8::try_from(lanes), u32::try_from(capacity)) else {
        return None;
    };
    let smallest = Layout {
        objects: 1,
        fields: 1,
        lanes,
        capacity,
    };
    if !smallest.is_within_limits() {
        return None;
    }
    Some((lanes, capacity))
}
