// Start and end. Each looks first, which answers something small, and then carries out what it found.
// Kept: the order, the record, the number and the weights side by side. A start only reads the order, an end changes it; the number
// goes to the look alone, the record to the change too. A struct of them would be taken apart at once.
ghost use Rattle.changes.specs.Changes.{StartedBy, EndedBy};

use crate::Change;
use crate::carry::{changed, weight_at};
use arrays::Order;
use looks::{end_look, start_look};
use records::in_state;
use semantics::{CallRefusal, Record};

// A start: "its state becomes 2".
pub fn start_change(
    order: &Order,
    modes: &[u8; 8192],
    own: Record,
    task: u32,
    weights: [u16; 15],
) -> Result<Change, CallRefusal>
    ensures { StartedBy order.now modes.now own task weights result }
{
    start_look(order, modes, own, task)?;
    let next = in_state(own, 2);
    Ok(changed(next, weight_at(weights, 0)))
}

// An end: "the job leaves the order and its state becomes 3".
pub fn end_change(
    order: &mut Order,
    own: Record,
    size: usize,
    task: u32,
    weights: [u16; 15],
) -> Result<Change, CallRefusal>
    ensures { EndedBy order.old order.new own size task weights result }
{
    let place = end_look(order, own, size, task)?;
    let next = in_state(own, 3);
    order.remove(place);
    Ok(changed(next, weight_at(weights, 1)))
}
