// What the search of each task in the order finds (request 103), in lines: for all locations (document 01: entries) of its
// footprint together, then for each by itself.
use crate::answers::answer_number;
use crate::asks::locations;
use ahead::Access;
use runtime::Run;
use std::io::{self, Write};

// ` K N`, of which K is 0, 19 or 20, or ` refused K`
fn put_search<W: Write>(out: &mut W, run: &Run, task: u8, wanted: &[Access]) -> io::Result<()> {
    match inspect::task_search(*run, u32::from(task), wanted) {
        Ok(searched) => {
            let number = answer_number(searched.hold.answer());
            write!(out, " {number} {}", searched.looked)
        }
        Err(refusal) => write!(out, " refused {}", u8::from(refusal)),
    }
}

// `search T K N` or `search T refused K`, for all locations of the footprint together.
fn put_whole<W: Write>(out: &mut W, run: &Run, task: u8) -> io::Result<()> {
    write!(out, "search {task}")?;
    let wanted = ahead::wanted_of(&run.modes, usize::from(task));
    put_search(out, run, task, wanted.as_slice())
}

// ` K N K N ..`, for each location of the footprint (its mode isn't 0) by itself.
fn put_locations<W: Write>(out: &mut W, run: &Run, task: u8) -> io::Result<()> {
    let Ok(recorded) = inspect::task_record(*run, u32::from(task)) else {
        return Ok(());
    };
    let modes = &recorded.modes[..usize::from(locations(run))];
    for (location, mode) in modes.iter().enumerate() {
        if *mode != 0 {
            let wanted = ahead::wanted_at(location, *mode);
            put_search(out, run, task, wanted.as_slice())?;
        }
    }
    Ok(())
}

// The lines of the tasks in the order, front to back.
fn put_order<W: Write>(out: &mut W, run: &Run) -> io::Result<()> {
    for task in run.order.as_slice() {
        put_whole(out, run, *task)?;
        put_locations(out, run, *task)?;
        writeln!(out)?;
    }
    Ok(())
}

// The lowest number that is not in the order.
fn first_absent(run: &Run) -> Option<u8> {
    (0..128).find(|&task| run.order.position(task).is_none())
}

// The searches of all tasks in the order, and the two that are refused: of the lowest number that is not in it, if there is
// one, and of 128.
pub fn put_searches<W: Write>(out: &mut W, run: &Run) -> io::Result<()> {
    put_order(out, run)?;
    if let Some(task) = first_absent(run) {
        put_whole(out, run, task)?;
        writeln!(out)?;
    }
    put_whole(out, run, 128)?;
    writeln!(out)
}
