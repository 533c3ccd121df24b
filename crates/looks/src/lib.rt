// The look that a call begins with: the task's place in the order, or why the call is refused.
#![tactic(auto)]

mod look;

pub use look::{at_end, end_look, place_of, start_look, step_look};
