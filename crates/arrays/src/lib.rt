// Leaf operations on the runtime's arrays, each proved against one equation over lists: the order of the unended tasks,
// rows of the table of modes.
#![tactic(auto)]

mod modes;
mod order;
mod places;

pub use modes::{mode_at, mode_in, put_row, row_of, with_mode};
pub use order::Order;
