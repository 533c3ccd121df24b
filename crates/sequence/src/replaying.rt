// Demand 3 over the code: a run is opened, then a list of calls is made on it by start, step and end.
ghost use Rattle.semantics.specs.Operations.{open_asked};
ghost use Rattle.runtime.specs.Calls.{calls_of_kind, CallsMade};
ghost use Rattle.sequence.specs.Replays.{calls_of, ReplayedAs};

use runtime::{OpenRefusal, Run};

// One call: 0 start, 1 step, 2 end; another kind is no call. A refused call leaves the run as it was.
fn called(run: &mut Run, kind: u8, task: u32)
    ensures { CallsMade (calls_of_kind kind task) run.old run.new }
{
    match kind {
        0 => {
            let _answer = run.try_start(task);
        }
        1 => {
            let _answer = run.try_step(task);
        }
        2 => {
            let _answer = run.try_end(task);
        }
        _ => {}
    }
}

// As many calls as the shorter slice has, one after the other.
// Kept: bytes for the kinds, since any byte is taken: another kind is no call. An enum of three would ask more of callers.
pub fn all_called(mut run: Run, kinds: &[u8], tasks: &[u32]) -> Run
    ensures { CallsMade (calls_of kinds.now tasks.now) run result }
{
    for (kind, task) in kinds.iter().zip(tasks) {
        called(&mut run, *kind, *task);
    }
    run
}

// Opens a run and makes these calls on it, refused ones included.
pub fn replay(
    list: &[u8],
    memory: &[u32],
    weights: &[u16],
    kinds: &[u8],
    tasks: &[u32],
) -> Result<Run, OpenRefusal>
    ensures { ReplayedAs list.now memory.now weights.now (calls_of kinds.now tasks.now) (open_asked list.now memory.now weights.now) result }
{
    let fresh = fresh::open(list, memory, weights)?;
    Ok(all_called(fresh, kinds, tasks))
}
