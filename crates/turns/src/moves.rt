// The move: which task is the foremost, and which of start, step and end is its next call.
ghost use Rattle.std.specs.Prelude.{◌≡◌};
ghost use Rattle.turns.specs.Moves.{next_kind, NextCalled, MovedAs};

use crate::{Kind, MoveRefusal, Moved};
use runtime::{Called, Run};
use semantics::Record;

// Which call is the next one of a task with this record, whose body has so many instructions: its start while it waits, then
// its steps, at its end its end.
pub fn next_kind(own: Record, size: usize) -> Kind
    ensures { result ≡ next_kind size own }
{
    if own.state == 1 {
        Kind::Start
    } else if looks::at_end(own, size) {
        Kind::End
    } else {
        Kind::Step
    }
}

// The next call of a task.
fn next_call(run: Run, task: u8) -> Called
    ensures { NextCalled run task result }
{
    let number = u32::from(task);
    // no record: refused
    let Some(&own) = run.records.get(usize::from(task)) else {
        return run.start(number);
    };
    let size = run.body_size(own);
    match next_kind(own, size) {
        Kind::Start => run.start(number),
        Kind::Step => run.step(number),
        Kind::End => run.end(number),
    }
}

// The first side's move: 25 no task is left.
pub fn foremost_move(run: Run) -> Moved
    ensures { MovedAs run result }
{
    let Some(&foremost) = run.order.as_slice().first() else {
        return Moved {
            answer: Err(MoveRefusal::NoneLeft),
            run,
        };
    };
    let done = next_call(run, foremost);
    Moved {
        answer: done.answer.map_err(MoveRefusal::from),
        run: done.run,
    }
}
