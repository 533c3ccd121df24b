// The model of the runtime and its guarantee: the definitions are in specs/, the theorems in proofs/. The types declared
// here are shared with the runtime, whose promises use the definitions.
#![tactic(auto)]

ghost use Rattle.std.specs.Prelude.{◌≡◌};
ghost use Rattle.semantics.specs.Answers.{refusal_number, fault_number};

// A task's record (document 01: job), but for its 64 modes, which the runtime keeps in one table for all tasks.
// Kept: numbers in the place of enums of the states and the faults. Any run is handled, also one whose record holds a state
// or a fault that no call makes, and a narrower type would ask more of callers.
#[derive(Clone, Copy)]
pub struct Record {
    // 0 never made, 1 waiting, 2 started, 3 ended
    pub state: u8,
    pub body: u8,
    // the place in the body
    pub pc: u32,
    pub registers: [u32; 4],
    // instructions done
    pub steps: u32,
    // 0 none, else document 01's fault number
    pub fault: u8,
    pub weight: u32,
}

// Why a call, a record or a queue is refused: document 01's numbers 9 to 17, in this order, and request 102's 19 and 20 in
// the place of 12. What start, step and end answer is a Result<(), CallRefusal>.
#[derive(Clone, Copy, Debug, PartialEq, Eq)]
pub enum CallRefusal {
    // 9: a task number above 127.
    Number,
    // 10: the task is not in the order.
    Absent,
    // 11: the task has already started.
    Started,
    // 19: the task is held back, and a task of mode write is ahead of it.
    BehindWriter,
    // 20: the task is held back by others.
    BehindOthers,
    // 13: the task has not started.
    Waiting,
    // 14: the task is at its end.
    Finished,
    // 15: the task is not at its end.
    Unfinished,
    // 16: the location is not below C.
    Location,
    // 17: the lent slice is too short.
    Short,
}

// Document 01's number of a refusal.
impl From<CallRefusal> for u8 {
    ghost from_gives = { λ refusal number. number ≡ refusal_number refusal };

    fn from(refusal: CallRefusal) -> u8 {
        match refusal {
            CallRefusal::Number => 9,
            CallRefusal::Absent => 10,
            CallRefusal::Started => 11,
            CallRefusal::BehindWriter => 19,
            CallRefusal::BehindOthers => 20,
            CallRefusal::Waiting => 13,
            CallRefusal::Finished => 14,
            CallRefusal::Unfinished => 15,
            CallRefusal::Location => 16,
            CallRefusal::Short => 17,
        }
    }
}

// Why an instruction faults.
#[derive(Clone, Copy, Debug, PartialEq, Eq)]
pub enum Fault {
    // 1: the location is not in the footprint.
    Outside,
    // 2: its mode does not allow the access.
    Mode,
    // 4: the result is above 2^32 - 1.
    TooLarge,
    // 5: the divisor is 0.
    ZeroDivisor,
}

// Document 01's number of a fault.
impl From<Fault> for u8 {
    ghost from_gives = { λ fault number. number ≡ fault_number fault };

    fn from(fault: Fault) -> u8 {
        match fault {
            Fault::Outside => 1,
            Fault::Mode => 2,
            Fault::TooLarge => 4,
            Fault::ZeroDivisor => 5,
        }
    }
}
