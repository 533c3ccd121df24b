// What a start and an end change, by the order, the modes, the task's own record and the weights, which are lent.
#![tactic(auto)]

use semantics::Record;
use tables::Block;

// What an accepted call changes: the task's record, the call's weight, and the tasks made, none by a start or an end. The memory,
// the modes and the order are changed where they stand. A refused call changes nothing.
#[derive(Clone, Copy)]
pub struct Change {
    pub own: Record,
    pub weight: u32,
    pub made: Option<Made>,
}

// The tasks that a step makes: their numbers, and the record of the foremost.
#[derive(Clone, Copy)]
pub struct Made {
    pub block: Block,
    pub record: Record,
}

mod calls;
mod carry;

pub use calls::{end_change, start_change};
pub use carry::{changed, weight_at};
