// What a step changes, by the lent tables, memory, modes, order and weights, and the task's own record.
#![tactic(auto)]

mod spawn;
mod step;

pub use step::step_change;
