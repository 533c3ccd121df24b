// The move of the foremost task (request 112), in lines: once, and again and again until it is refused.
use crate::asks::{put_counts, put_memory, put_record};
use runtime::Run;
use std::io::{self, Write};

// How many moves were made, and the run behind them.
#[derive(Clone, Copy)]
struct Outcome {
    made: u32,
    run: Run,
}

// The record, behind a move, of the task that was foremost before; nothing where none was left.
fn put_foremost<W: Write>(out: &mut W, before: &Run, after: &Run) -> io::Result<()> {
    match before.order.as_slice().first() {
        Some(task) => put_record(out, "move record", after, u32::from(*task)),
        None => Ok(()),
    }
}

// The lines of one move.
fn put_move<W: Write>(out: &mut W, run: &Run) -> io::Result<()> {
    let moved = turns::foremost_move(*run);
    write!(out, "move {}", moved.answer.err().map_or(0, u8::from))?;
    put_counts(out, &moved.run)?;
    put_memory(out, "move entries", &moved.run)?;
    put_foremost(out, run, &moved.run)
}

// The move until it is refused. A run has at most 4,352 calls, 34 of each of 128 tasks: one more turn meets the refusal.
fn played(run: &Run) -> Outcome {
    let mut run = *run;
    for made in 0..4353 {
        let moved = turns::foremost_move(run);
        run = moved.run;
        if moved.answer.is_err() {
            return Outcome { made, run };
        }
    }
    Outcome { made: 4353, run }
}

// The lines of the move and of its repetition, each on a copy of the run.
pub fn put_moves<W: Write>(out: &mut W, run: &Run) -> io::Result<()> {
    put_move(out, run)?;
    let all = played(run);
    write!(out, "moves {}", all.made)?;
    put_counts(out, &all.run)?;
    put_memory(out, "moves entries", &all.run)
}
