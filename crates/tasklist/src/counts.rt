// Task counts, from the last body to the first, each capped at 129.
ghost use Rattle.std.specs.Prelude.{ℕ, ◌+◌, ◌<◌, ◌≡◌, get_or, take};
ghost use Rattle.tasklist.specs.TaskList.{adds, counts};
ghost use Rattle.tasklist.specs.Tables.{rows, capped};

use crate::Instruction;

// The count of a body, 1 where there is none.
fn count_of(known: &[u8; 32], body: u8) -> usize
    ensures same { result ≡ get_or known.now body 1 }
    ensures small { result < 256 }
{
    usize::from(known.get(usize::from(body)).copied().unwrap_or(1))
}

// What one instruction adds to its body's count.
#[tactic(auto, using(crate::proofs::CountLaws::adds_nothing, crate::proofs::CountLaws::product_small), unfolding(crate::specs::TaskList::adds))]
pub fn added(instruction: Instruction, known: &[u8; 32]) -> usize
    ensures sum { result ≡ adds (λ a. get_or known.now a 1) instruction }
    ensures small { result < 65536 }
{
    match instruction {
        Instruction::Spawn { body, .. } => count_of(known, body),
        Instruction::Fan { body, children, .. } => usize::from(children) * count_of(known, body),
        _ => 0,
    }
}

// A count with what one more instruction adds.
fn counted(n: u8, instruction: Instruction, known: &[u8; 32]) -> u8
    ensures { result ≡ capped (n + adds (λ a. get_or known.now a 1) instruction) }
{
    let sum = usize::from(n) + added(instruction, known);
    u8::try_from(sum.min(129)).unwrap_or(129)
}

// The counts of all bodies, 1 where there is none.
// Kept: a loop by index, since of a chain of rows and sizes from the last to the first a proof doesn't know which comes.
pub fn task_counts(bodies: usize, sizes: &[u8; 32], cells: &[Instruction; 1024]) -> [u8; 32]
    ensures { (s : ℕ) → get_or result s 1 ≡ capped (get_or (counts 0 (rows 32 (take bodies sizes.now) cells.now)) s 1) }
{
    let mut known = [1; 32];
    for s in (0..bodies.min(32)).rev() {
        let size = usize::from(sizes[s]).min(32);
        let mut n = 1;
        for instruction in &cells[32 * s..32 * s + size] {
            n = counted(n, *instruction, &known);
        }
        known[s] = n;
    }
    known
}
