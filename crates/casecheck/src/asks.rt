// What is asked of a run, in lines: entries, totals, records.
// Kept: the writer and the run are two parameters, here and beside. A struct of both would be no plainer: the moves print other
// runs to the same writer, and each would make its own.
ghost use Rattle.std.specs.Prelude.{◌≤◌};

use crate::text::put_numbers;
use runtime::{Recorded, Run};
use semantics::CallRefusal;
use std::io::{self, Write};

// `LABEL N refused K`
pub fn put_refused<W: Write>(
    out: &mut W,
    label: &str,
    n: u32,
    refusal: CallRefusal,
) -> io::Result<()> {
    let number = u8::from(refusal);
    writeln!(out, "{label} {n} refused {number}")
}

// How many locations the list has (document 01: entries, C).
pub fn locations(run: &Run) -> u8
    ensures { result ≤ 64 }
{
    run.tables.locations.min(64)
}

// `LABEL N N ..`, the memory (document 01: the entries).
pub fn put_memory<W: Write>(out: &mut W, label: &str, run: &Run) -> io::Result<()> {
    write!(out, "{label}")?;
    put_numbers(out, &run.memory[..usize::from(locations(run))])?;
    writeln!(out)
}

// ` CALLS WEIGHT LEFT` to the end of its line
pub fn put_counts<W: Write>(out: &mut W, run: &Run) -> io::Result<()> {
    writeln!(out, " {} {} {}", run.calls, run.weight, run.order.left)
}

// `LABEL CALLS WEIGHT LEFT`
pub fn put_totals<W: Write>(out: &mut W, label: &str, run: &Run) -> io::Result<()> {
    write!(out, "{label}")?;
    put_counts(out, run)
}

// ` S B P R0 R1 R2 R3 D F W MODES`, the 64 modes as digits
fn put_fields<W: Write>(out: &mut W, recorded: &Recorded) -> io::Result<()> {
    let own = recorded.task;
    write!(out, " {} {} {}", own.state, own.body, own.pc)?;
    put_numbers(out, &own.registers)?;
    write!(out, " {} {} {} ", own.steps, own.fault, own.weight)?;
    for mode in &recorded.modes {
        write!(out, "{mode}")?;
    }
    Ok(())
}

// `LABEL T ..`, a task's record; nothing where its state is 0.
pub fn put_record<W: Write>(out: &mut W, label: &str, run: &Run, task: u32) -> io::Result<()> {
    match inspect::task_record(*run, task) {
        Err(refusal) => put_refused(out, label, task, refusal),
        Ok(recorded) if recorded.task.state == 0 => Ok(()),
        Ok(recorded) => {
            write!(out, "{label} {task}")?;
            put_fields(out, &recorded)?;
            writeln!(out)
        }
    }
}

// The records of all tasks.
pub fn put_records<W: Write>(out: &mut W, label: &str, run: &Run) -> io::Result<()> {
    for task in 0..128 {
        put_record(out, label, run, task)?;
    }
    Ok(())
}
