//! A list of calls, and what each image stands for while they run.
ghost use Rattle.durable.specs.Plays.{MakesCall, Plays};

use crate::store::Store;
use crate::store_call::StoreCall;
use block_disk::Disk;
use heap_model::StoreError;

impl<D: Disk> Store<D> {
    /// Makes these calls, in order. It stops at the first refusal, and answers its place among them and the reason; what was
    /// done before it stands. Where no call has anything to write the device isn't called.
    ///
    /// Whatever a crash leaves at any moment stands for the heap that was acknowledged after some of the calls, or that the
    /// next settling acknowledges. At the moment when a call had been made that changes sides: from then on it is of that call
    /// and later ones alone, and up to then of that call and earlier ones alone.
    ///
    /// Each call takes one sequence of the control at most.
    pub fn play(&mut self, calls: &[StoreCall]) -> Result<(), (usize, StoreError)>
        ensures { Plays D.device self.old self.new calls.now result }
    {
        for (place, call) in calls.iter().enumerate() {
            if let Err(reason) = self.make(*call) {
                return Err((place, reason));
            }
        }
        Ok(())
    }

    // Makes this call.
    fn make(&mut self, call: StoreCall) -> Result<(), StoreError>
        ensures { MakesCall D.device self.old self.new call result }
    {
        match call {
            StoreCall::Apply(lane, record) => self.apply(lane, record),
            StoreCall::Log => match self.log_step() {
                Ok(_) => Ok(()),
                Err(reason) => Err(reason),
            },
            StoreCall::Home => match self.home_step() {
                Ok(_) => Ok(()),
                Err(reason) => Err(reason),
            },
            StoreCall::Settle => self.settle(),
            StoreCall::Trim => self.trim(),
        }
    }
}
