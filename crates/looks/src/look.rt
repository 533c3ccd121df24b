// The looks of start, end and step, each by the order and the task's own record; that of a start at the tasks ahead too.
// Kept: a u32 becomes a usize by `as`, since there is no `From`.
// Kept: the order, the task's record and its number side by side. The order is a field of the run, the number is the caller's; the
// number is looked up and the record tested, each by itself. A struct of the three would be filled for one look.
ghost use Rattle.std.specs.Prelude.{◌≡◌};
ghost use Rattle.looks.specs.Looks.{LocatedIn, StartedIn, finished, StartIn, EndIn, ReadyIn};

use arrays::Order;
use semantics::{CallRefusal, Record};

// The place of a task in the order: 9, then 10.
pub fn place_of(order: &Order, task: u32) -> Result<usize, CallRefusal>
    ensures { LocatedIn order.now task result }
{
    match u8::try_from(task) {
        Ok(number @ 0..=127) => order.position(number).ok_or(CallRefusal::Absent),
        _ => Err(CallRefusal::Number),
    }
}

// The place of a started task in the order: 9, 10, then 13.
fn started_place(order: &Order, own: Record, task: u32) -> Result<usize, CallRefusal>
    ensures { StartedIn order.now own task result }
{
    let place = place_of(order, task)?;
    if own.state != 2 {
        return Err(CallRefusal::Waiting);
    }
    Ok(place)
}

// Whether a task with this record is at the end of its body, of so many instructions, or after a fault.
pub fn at_end(own: Record, size: usize) -> bool
    ensures { result ≡ finished size own }
{
    size <= own.pc as usize || own.fault != 0
}

// What comes of a start: the task's place, or 9, 10, 11, 19, 20.
pub fn start_look(
    order: &Order,
    modes: &[u8; 8192],
    own: Record,
    task: u32,
) -> Result<usize, CallRefusal>
    ensures { StartIn order.now modes.now own task result }
{
    let place = place_of(order, task)?;
    if own.state != 1 {
        return Err(CallRefusal::Started);
    }
    let wanted = ahead::wanted_of(modes, task as usize);
    let found = ahead::search_ahead(order.front(place), modes, wanted.as_slice());
    found.hold.answer()?;
    Ok(place)
}

// What comes of an end: the task's place, or 9, 10, 13, 15.
pub fn end_look(order: &Order, own: Record, size: usize, task: u32) -> Result<usize, CallRefusal>
    ensures { EndIn order.now own size task result }
{
    let place = started_place(order, own, task)?;
    if !at_end(own, size) {
        return Err(CallRefusal::Unfinished);
    }
    Ok(place)
}

// What comes before an instruction is looked at: 9, 10, 13, 14, or the task's place.
pub fn step_look(order: &Order, own: Record, size: usize, task: u32) -> Result<usize, CallRefusal>
    ensures { ReadyIn order.now own size task result }
{
    let place = started_place(order, own, task)?;
    if at_end(own, size) {
        return Err(CallRefusal::Finished);
    }
    Ok(place)
}
