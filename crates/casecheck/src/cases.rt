// A case: its calls on a fresh run, what is then asked of it, and the sequential run and the rounds beside it.
use crate::answers::answer_number;
use crate::asks::{put_memory, put_record, put_records, put_totals};
use crate::bill::put_shares;
use crate::file::{Case, words};
use crate::lent::{put_lists, put_queues, put_short_queues};
use crate::moves::put_moves;
use crate::rounds::put_rounds;
use crate::searches::put_searches;
use runtime::{Called, OpenRefusal, Run};
use std::io::{self, Write};

// One call: 0 start, 1 step, else end.
// Kept: a match over the number of a kind, since the file hands bytes.
fn called(run: Run, kind: u8, task: u32) -> Called {
    match kind {
        0 => run.start(task),
        1 => run.step(task),
        _ => run.end(task),
    }
}

// `calls A A ..`, and the run behind the calls.
fn put_calls<W: Write>(out: &mut W, mut run: Run, calls: &[u8]) -> io::Result<Run> {
    write!(out, "calls")?;
    let (calls, _) = calls.as_chunks::<5>();
    for &[kind, a, b, c, d] in calls {
        let done = called(run, kind, u32::from_le_bytes([a, b, c, d]));
        write!(out, " {}", answer_number(done.answer))?;
        run = done.run;
    }
    writeln!(out)?;
    Ok(run)
}

// The lines behind the calls.
fn put_state<W: Write>(out: &mut W, run: &Run) -> io::Result<()> {
    put_memory(out, "entries", run)?;
    put_totals(out, "total", run)?;
    put_queues(out, run)?;
    put_short_queues(out, run)?;
    put_records(out, "record", run)?;
    put_record(out, "record", run, 128)?;
    put_lists(out, run)?;
    put_searches(out, run)?;
    put_moves(out, run)?;
    put_shares(out, "", run)
}

// The lines of the sequential run (document 01: the hand run).
fn put_hand<W: Write>(out: &mut W, hand: Result<Run, OpenRefusal>) -> io::Result<()> {
    match hand {
        Ok(run) => {
            put_totals(out, "hand", &run)?;
            put_memory(out, "hand entries", &run)?;
            put_records(out, "hand record", &run)?;
            put_shares(out, "hand ", &run)
        }
        Err(refusal) => writeln!(out, "hand refused {}", u8::from(refusal)),
    }
}

// All lines of a case.
pub fn put_case<W: Write>(out: &mut W, number: usize, case: Case<'_>) -> io::Result<()> {
    let list = case.list;
    let mut room = [0; 16384];
    let memory = words(case.numbers, &mut room);
    let weights = fresh::todays_weights();
    writeln!(out, "case {number}")?;
    match fresh::open(list, memory, &weights) {
        Ok(fresh) => {
            writeln!(out, "open 0")?;
            let run = put_calls(out, fresh, case.calls)?;
            put_state(out, &run)?;
            put_hand(out, sequence::sequential(list, memory, &weights))?;
            put_rounds(out, &[0, 1, 2, 3, 16, 17], list, memory)
        }
        Err(refusal) => {
            writeln!(out, "open {}", u8::from(refusal))?;
            put_rounds(out, &[0, 1, 17], list, memory)
        }
    }
}
