// An instruction's code, and how often the number of its code it weighs.
ghost use Rattle.std.specs.Prelude.{◌≡◌, ◌<◌, slice_index};
ghost use Rattle.tasklist.specs.Encode.{instruction_fields};
ghost use Rattle.semantics.specs.Plan.{units};

use tasklist::Instruction;

// The code of an instruction.
// Kept: "the step decides by a match over the code number and then over the instruction's case", as the project's rule has it.
#[tactic(auto, unfolding(tasklist::specs::Encode::instruction_fields))]
pub fn code_of(instruction: Instruction) -> usize
    ensures { (result ≡ slice_index (instruction_fields instruction) 0) × (result < 13) }
{
    match instruction {
        Instruction::Const { .. } => 0,
        Instruction::Add { .. } => 1,
        Instruction::Sub { .. } => 2,
        Instruction::Less { .. } => 3,
        Instruction::Load { .. } => 4,
        Instruction::Store { .. } => 5,
        Instruction::Skip { .. } => 6,
        Instruction::Spawn { .. } => 7,
        Instruction::Wait { .. } => 8,
        Instruction::Fan { .. } => 9,
        Instruction::Sum { .. } => 10,
        Instruction::Mul { .. } => 11,
        Instruction::Div { .. } => 12,
    }
}

// How often the number of its code an instruction weighs; request 104: "The weight is 8 × c." A sum weighs once, whatever it adds.
#[tactic(auto, unfolding(semantics::specs::Plan::units))]
pub fn units_of(instruction: Instruction) -> u32
    ensures { (result ≡ units instruction) × (result < 256) }
{
    match instruction {
        Instruction::Fan { children, .. } => u32::from(children),
        _ => 1,
    }
}
