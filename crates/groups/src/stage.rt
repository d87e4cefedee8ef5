//! A stage of a query.

ghost use Rattle.std.specs.Prelude.{◌≡◌, [], None, IsOk, OnOk};
ghost use Rattle.memory.specs.Gives.{Gives};
ghost use Rattle.groups.specs.Stages.{unless_fault};
ghost use Rattle.groups.specs.Progress.{Adds, IsAddedInPlace, given, given_if};

use crate::faults::lesser;
use memory::{Failure, Heap, Items};
use std::alloc::AllocError;
use value::Fault;

/// The state of a stage: it evaluates every combination or group, and keeps the least fault.
#[derive(Drop)]
pub struct Stage<Y: Drop, A: Heap> {
    /// The values so far, in order.
    pub given: Items<Y, A>,
    /// The least fault.
    pub least: Option<Fault>,
}

/// The outcome of a combination or group that gives a value where it does not fault.
pub fn gives<Y: Drop>(outcome: Result<Y, Failure<Fault>>) -> Result<Option<Y>, Failure<Fault>>
    ensures { result ≡ given outcome }
{
    match outcome {
        Ok(value) => Ok(Some(value)),
        Err(failure) => Err(failure),
    }
}

/// The combination or group, where the test is true.
pub fn gives_if<Y: Drop>(
    value: Y,
    test: Result<bool, Failure<Fault>>,
) -> Result<Option<Y>, Failure<Fault>>
    ensures { result ≡ given_if value test }
{
    match test {
        Ok(true) => Ok(Some(value)),
        Ok(false) => Ok(None),
        Err(failure) => Err(failure),
    }
}

impl<Y: Drop, A: Heap> Stage<Y, A> {
    /// A stage before its first combination or group.
    pub fn new(alloc: A) -> Stage<Y, A>
        ensures given { result.given ≡ [] }
        ensures least { result.least ≡ None }
    {
        Stage {
            given: Items::new(alloc),
            least: None,
        }
    }

    /// Adds the outcome of one more: a value, nothing or a fault. Where memory ran out, it is reported; only a value takes any.
    pub fn add(&mut self, outcome: Result<Option<Y>, Failure<Fault>>) -> Result<(), AllocError>
        ensures added { OnOk result (Adds outcome self.old self.new) }
        ensures in_place { IsAddedInPlace outcome → IsOk result }
    {
        match outcome {
            Ok(Some(value)) => {
                self.given.push(value)?;
                Ok(())
            }
            Ok(None) => Ok(()),
            Err(Failure::Error(fault)) => {
                self.least = lesser(self.least, fault);
                Ok(())
            }
            Err(Failure::OutOfMemory) => Err(AllocError),
        }
    }

    /// All that was given, or the least fault.
    pub fn end(self) -> Result<Items<Y, A>, Failure<Fault>>
        ensures { Gives (λ all. all) result (unless_fault self.least self.given) }
    {
        match self.least {
            None => Ok(self.given),
            Some(fault) => Err(Failure::Error(fault)),
        }
    }
}
