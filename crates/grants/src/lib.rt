// What a footprint gives a spawned task, and the children of one step: their modes, or the first fault; the registers that
// each child has, and the test of an access. Each is proved against one equation over lists.
#![tactic(auto)]

mod footprint;

pub use footprint::{Spawner, access_fault, child_registers, location_at, register_at};
