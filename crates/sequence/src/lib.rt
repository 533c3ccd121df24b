// Whole runs of a job list: the sequential run (document 01: the hand run), and a list of calls made one after the other.
// Stands above the runtime and uses its promises only.
#![tactic(auto)]

mod replaying;
mod whole;

pub use replaying::{all_called, replay};
pub use whole::sequential;
