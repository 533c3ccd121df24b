// The calls of a round: the first tasks in the order whose next call would be accepted, found by looks that change nothing.
// Kept: a u32 becomes a usize by `as`, since there is no `From`.
ghost use Rattle.std.specs.Prelude.{◌≡◌};
ghost use Rattle.runtime.specs.View.{parts_of};
ghost use Rattle.run_rounds.specs.Looking.{waits, SeenAs, BatchOf};

use crate::{ALL_WORKERS, Batch};
use looks::{end_look, start_look, step_look};
use plans::{Standing, StepPlan, Stop, plan_of};
use runtime::Run;
use turns::{Kind, next_kind};

// Whether a step is held back by the tasks ahead.
fn waits(plan: Result<StepPlan, Stop>) -> bool
    ensures { result ≡ waits plan }
{
    matches!(plan, Err(Stop::Held(_)))
}

// The kind of the next call of a task, where it would be accepted: a start and a step look at the tasks ahead, an end never waits.
fn next_seen(run: &Run, task: u8) -> Option<Kind>
    ensures { SeenAs (parts_of run.now) task result }
{
    let own = *run.records.get(usize::from(task))?;
    let number = u32::from(task);
    let instructions = listing::body_instructions(&run.tables, usize::from(own.body));
    let size = instructions.len();
    let kind = next_kind(own, size);
    match kind {
        Kind::Start => {
            start_look(&run.order, &run.modes, own, number).ok()?;
        }
        Kind::End => {
            end_look(&run.order, own, size, number).ok()?;
        }
        Kind::Step => {
            let place = step_look(&run.order, own, size, number).ok()?;
            let standing = Standing {
                order: &run.order,
                modes: &run.modes,
                task: usize::from(task),
                place,
            };
            let instruction = *instructions.get(own.pc as usize)?;
            if waits(plan_of(&standing, &run.memory, own.registers, instruction)) {
                return None;
            }
        }
    }
    Some(kind)
}

// The calls of a round with so many workers.
// Kept: counted by hand: `filter_map`, `take` and `enumerate` in a chain would need the batch's two arrays filled through an index
// all the same.
pub(crate) fn round_calls(run: Run, workers: usize) -> Batch
    ensures { BatchOf run workers result }
{
    let mut batch = Batch {
        count: 0,
        kinds: [0; ALL_WORKERS],
        tasks: [0; ALL_WORKERS],
    };
    for &task in run.order.as_slice() {
        let place = usize::from(batch.count);
        if workers <= place {
            break;
        }
        let Some(kind) = next_seen(&run, task) else {
            continue;
        };
        batch.kinds[place] = u8::from(kind);
        batch.tasks[place] = u32::from(task);
        batch.count += 1;
    }
    batch
}
