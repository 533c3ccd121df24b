// What is found in a list for its reader: the task of a number, and the byte at which a list is refused.
#![tactic(auto)]

// A task (document 01: job) that a list can make: its number, body (sheet) and footprint, and the task and place that
// make it; `child` is its number among the `children` of a fan, which are 0 for a spawn; `depth` is how many tasks stand
// above it. The first task is made by none.
#[derive(Clone, Copy, Debug, Default, PartialEq, Eq)]
pub struct Job {
    pub number: usize,
    pub body: usize,
    pub footprint: usize,
    pub spawner: usize,
    pub place: usize,
    pub child: usize,
    pub children: usize,
    pub depth: usize,
}

mod jobs;
mod refused;

pub use jobs::{job_of, last_of};
pub use refused::{refused_end, whole};
