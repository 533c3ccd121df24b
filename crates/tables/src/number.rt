// A child's number, by the counts of the tables.
ghost use Rattle.std.specs.Prelude.{◌<◌, ◌≡◌};
ghost use Rattle.tables.specs.Numbers.{number_by};

use listing::body_instructions;
use tasklist::{Tables, added};

// The number of the task that `task` makes at place `pc` of its body; for a task above 127 nothing is said.
#[tactic(auto, using(crate::proofs::NumberLaws::counts_ahead))]
pub fn child_number(tables: &Tables, task: usize, body: usize, pc: usize) -> usize
    ensures { task < 128 → result ≡ number_by tables.now task body pc }
{
    if 128 <= task {
        return task;
    }
    let instructions = body_instructions(tables, body);
    let mut n = task + 1;
    for instruction in &instructions[..pc.min(instructions.len())] {
        n += added(*instruction, &tables.counts);
    }
    n
}
