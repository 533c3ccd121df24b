// What an instruction of a task comes to, by the order, the modes, the memory and the task's registers, which are lent.
#![tactic(auto)]

ghost use Rattle.std.specs.Prelude.{◌≡◌};
ghost use Rattle.plans.specs.declared.Stop.TheVariants as Stops;

use semantics::{CallRefusal, Fault};

// Why an instruction is no step on; faults come before waiting.
#[derive(Clone, Copy, Debug, PartialEq, Eq)]
pub enum Stop {
    Fault(Fault),
    // The task is held back: 19, 20.
    Held(CallRefusal),
}

impl From<Fault> for Stop {
    ghost from_gives = { λ fault stop. stop ≡ Stops.Fault fault };

    fn from(fault: Fault) -> Stop {
        Stop::Fault(fault)
    }
}

impl From<CallRefusal> for Stop {
    ghost from_gives = { λ refusal stop. stop ≡ Stops.Held refusal };

    fn from(refusal: CallRefusal) -> Stop {
        Stop::Held(refusal)
    }
}

// What an instruction comes to, by the task's own record and a look at the tasks ahead.
#[derive(Clone, Copy, Debug, PartialEq, Eq)]
pub enum StepPlan {
    // One step on, with a value in a register.
    Assign { target: u8, value: u32 },
    // One step on, and over this many instructions.
    Pass { over: u8 },
    // One step on, with a value at a location.
    Store { location: usize, value: u32 },
    // One step on, with a value added to a location.
    Sum { location: usize, value: u32 },
    // One step on with tasks made, or the first fault of their footprints.
    Make(Spawning),
}

// The tasks that a step makes: their body and footprint, R0 of the foremost, and how many there are.
#[derive(Clone, Copy, Debug, PartialEq, Eq)]
pub struct Spawning {
    pub body: u8,
    pub footprint: u8,
    pub first: u32,
    pub children: u8,
}

mod parts;
mod standing;

pub use parts::plan_of;
pub use standing::Standing;
