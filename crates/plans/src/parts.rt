// What each instruction comes to: a look at the task's own record, and for those that may wait at the tasks ahead.
ghost use Rattle.plans.specs.Steps.{PlansIn};

use crate::{Spawning, Standing, StepPlan, Stop};
use grants::{location_at, register_at};
use records::{code_of, constant, difference, less, passed_over, product, ratio, value_at};
use tasklist::Instruction;

// What an instruction comes to, or why it is no step on.
// Kept: "the step decides by a match over the code number and then over the instruction's case", as the project's rule has it; those
// that may wait stand together.
#[tactic(auto, using(crate::proofs::StepLaws::plans_of))]
pub fn plan_of(
    standing: &Standing,
    memory: &[u32; 64],
    registers: [u32; 4],
    instruction: Instruction,
) -> Result<StepPlan, Stop>
    ensures { PlansIn standing.now.order.now.places standing.now.modes.now memory.now registers standing.now.task standing.now.place instruction result }
{
    match code_of(instruction) {
        // those that may wait
        4 | 5 | 8 | 10 => match instruction {
            // "Load needs reading"
            Instruction::Load {
                target,
                place: from,
            } => {
                let location = location_at(registers, from);
                standing.access(location, 1, 1)?;
                Ok(StepPlan::Assign {
                    target,
                    value: value_at(memory, location),
                })
            }
            // "store needs writing"
            Instruction::Store { place: to, source } => {
                let location = location_at(registers, to);
                standing.access(location, 2, 2)?;
                Ok(StepPlan::Store {
                    location,
                    value: register_at(registers, source),
                })
            }
            // "wait needs what the job's own mode there allows"
            Instruction::Wait { place: at } => {
                let location = location_at(registers, at);
                let asked = standing.own_mode(location);
                standing.access(location, asked, asked)?;
                Ok(StepPlan::Pass { over: 0 })
            }
            // Request 107: "A job of mode 3 may sum .. when all ahead have mode 3; a writer sums only when none is ahead". Each asks
            // in its own mode.
            Instruction::Sum { place: to, source } => {
                let location = location_at(registers, to);
                let asked = standing.own_mode(location);
                standing.access(location, 3, asked)?;
                Ok(StepPlan::Sum {
                    location,
                    value: register_at(registers, source),
                })
            }
            _ => unreachable!(),
        },
        _ => match instruction {
            Instruction::Const { target, value } => Ok(StepPlan::Assign {
                target,
                value: constant(value),
            }),
            Instruction::Add {
                target,
                left,
                right,
            } => {
                let added = register_at(registers, right);
                let value = register_at(registers, left).wrapping_add(added);
                Ok(StepPlan::Assign { target, value })
            }
            Instruction::Sub {
                target,
                left,
                right,
            } => {
                let value = difference(register_at(registers, left), register_at(registers, right));
                Ok(StepPlan::Assign { target, value })
            }
            Instruction::Less {
                target,
                left,
                right,
            } => {
                let value = less(register_at(registers, left), register_at(registers, right));
                Ok(StepPlan::Assign { target, value })
            }
            Instruction::Skip { test, length } => Ok(StepPlan::Pass {
                over: passed_over(register_at(registers, test), length),
            }),
            Instruction::Spawn { body, footprint } => {
                let first = register_at(registers, 0);
                Ok(StepPlan::Make(Spawning {
                    body,
                    footprint,
                    first,
                    children: 1,
                }))
            }
            Instruction::Fan {
                body,
                footprint,
                children,
            } => Ok(StepPlan::Make(Spawning {
                body,
                footprint,
                first: 0,
                children,
            })),
            Instruction::Mul {
                target,
                left,
                right,
            } => {
                let value = product(register_at(registers, left), register_at(registers, right))?;
                Ok(StepPlan::Assign { target, value })
            }
            Instruction::Div {
                target,
                left,
                right,
            } => {
                let value = ratio(register_at(registers, left), register_at(registers, right))?;
                Ok(StepPlan::Assign { target, value })
            }
            _ => unreachable!(),
        },
    }
}
