// The step: it looks, plans its instruction, and carries the plan out.
// Kept: a u32 becomes a usize by `as`, since there is no `From`.
// Kept: the tables, the memory, the modes, the order, the record and the number side by side. The run lends each field by itself, three
// to be changed: a struct of references would be filled at each step, and each clause would speak of the borrows in it.
ghost use Rattle.steps.specs.Stepping.{SteppedBy};

use crate::spawn::spawned;
use arrays::Order;
use changes::{Change, changed, weight_at};
use looks::step_look;
use plans::{Standing, StepPlan, Stop, plan_of};
use records::{code_of, failed, holding, passed, store, sum, units_of};
use semantics::{CallRefusal, Record};
use tasklist::Tables;

// A step: one instruction.
pub fn step_change(
    tables: &Tables,
    memory: &mut [u32; 64],
    modes: &mut [u8; 8192],
    order: &mut Order,
    own: Record,
    task: u32,
    weights: [u16; 15],
) -> Result<Change, CallRefusal>
    ensures { SteppedBy tables.now memory.old modes.old order.old memory.new modes.new order.new own task weights result }
{
    let instructions = listing::body_instructions(tables, usize::from(own.body));
    let place = step_look(order, own, instructions.len(), task)?;
    let instruction = instructions[own.pc as usize];
    let code = code_of(instruction);
    let weight = units_of(instruction) * weight_at(weights, code + 2);
    let task = task as usize;
    let standing = Standing {
        order,
        modes,
        task,
        place,
    };
    match plan_of(&standing, memory, own.registers, instruction) {
        Err(Stop::Held(refusal)) => Err(refusal),
        Err(Stop::Fault(fault)) => Ok(changed(failed(own, u8::from(fault)), weight)),
        Ok(StepPlan::Assign { target, value }) => {
            Ok(changed(holding(passed(own, 0), target, value), weight))
        }
        Ok(StepPlan::Pass { over }) => Ok(changed(passed(own, over), weight)),
        Ok(StepPlan::Store { location, value }) => {
            store(memory, location, value);
            Ok(changed(passed(own, 0), weight))
        }
        Ok(StepPlan::Sum { location, value }) => {
            sum(memory, location, value);
            Ok(changed(passed(own, 0), weight))
        }
        Ok(StepPlan::Make(spawning)) => Ok(spawned(
            tables, modes, order, own, task, place, spawning, weight,
        )),
    }
}
