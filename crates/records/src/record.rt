// A task's record, and what a call makes of it.
ghost use Rattle.std.specs.Prelude.{◌≡◌, ◌<◌};
ghost use Rattle.records.specs.Records.{with_state, passed, failed, holding, newborn, child_record};

use semantics::Record;

// "place rises by 1 plus what a skip passes over, instructions done by 1"
pub fn passed(own: Record, over: u8) -> Record
    ensures { (result ≡ passed over own) × (over < 256) }
{
    Record {
        pc: own.pc.wrapping_add(1 + u32::from(over)),
        steps: own.steps.wrapping_add(1),
        ..own
    }
}

// "done rises, but no place, register, entry or other job changes, and the job is then at its end"
// Kept: the fault is a number, as in a record, since a narrower type would ask more of callers.
pub fn failed(own: Record, fault: u8) -> Record
    ensures { result ≡ failed fault own }
{
    Record {
        steps: own.steps.wrapping_add(1),
        fault,
        ..own
    }
}

// A record with a value in a register; the same where there is no such register.
pub fn holding(own: Record, target: u8, value: u32) -> Record
    ensures { result ≡ holding target value own }
{
    let mut next = own;
    let at = usize::from(target);
    if at < next.registers.len() {
        next.registers[at] = value;
    }
    next
}

// "the new job waiting, at place 0, with its sheet .. and a copy of the registers"
pub fn newborn(own: Record, body: u8) -> Record
    ensures { result ≡ newborn body own }
{
    Record {
        state: 1,
        body,
        pc: 0,
        steps: 0,
        fault: 0,
        weight: 0,
        ..own
    }
}

// A record with another state.
// Kept: the state is a number, as in a record, since a narrower type would ask more of callers.
pub fn in_state(own: Record, state: u8) -> Record
    ensures { result ≡ with_state state own }
{
    Record { state, ..own }
}

// Request 104: "Child i has R0 = i." The record of child i, by that of the foremost.
pub fn child_record(made: Record, i: u32) -> Record
    ensures { result ≡ child_record i made }
{
    let registers = grants::child_registers(made.registers, i);
    Record { registers, ..made }
}
