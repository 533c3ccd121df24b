// The sequential run (document 01: the hand run): task 0 is run whole.
// Kept: a u32 becomes a usize by `as`, since there is no `From`; so does a child's number, which is below 128, a u32.
ghost use Rattle.std.specs.Prelude.{◌<◌};
ghost use Rattle.semantics.specs.Operations.{sequential_asked};
ghost use Rattle.runtime.specs.Asked.{OpenedAs};
ghost use Rattle.sequence.specs.Replays.{RunWhole};

use runtime::{OpenRefusal, Run};

// "A job is run whole thus: its start, its steps until it is at its end, and at each spawn the child is run whole before the
// next step; last its end call." A child has a higher body: one less is left for it.
fn run_whole(run: &mut Run, task: u32, bodies: usize)
    requires { task < 128 }
    ensures { RunWhole bodies task run.old run.new }
{
    if bodies == 0 {
        return;
    }
    let own = run.records[task as usize];
    let size = run.body_size(own);
    let _started = run.try_start(task);
    // one more than the body has instructions
    for left in (0..size + 1).rev() {
        let own = run.records[task as usize];
        if looks::at_end(own, run.body_size(own)) {
            break;
        }
        let Ok(Some(made)) = run.try_step(task) else {
            continue;
        };
        // each is run whole, the foremost first
        for i in 0..made.children {
            run_whole(run, made.number(i) as u32, bodies - 1);
        }
    }
    let _ended = run.try_end(task);
}

// Runs a job list by hand: as open, then task 0 is run whole.
pub fn sequential(list: &[u8], memory: &[u32], weights: &[u16]) -> Result<Run, OpenRefusal>
    ensures { OpenedAs list.now weights.now (sequential_asked list.now memory.now weights.now) result }
{
    let mut run = fresh::open(list, memory, weights)?;
    let bodies = listing::body_count(&run.tables);
    run_whole(&mut run, 0, bodies);
    Ok(run)
}
