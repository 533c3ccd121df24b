// The fresh run (document 01): what open gives of a job list and a library. Stands above
// the runtime, whose runs they are.
#![tactic(auto)]

mod opening;
mod state;

pub use opening::{open, todays_weights};
pub use state::blank_record;
