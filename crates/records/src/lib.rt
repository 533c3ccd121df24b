// What a call makes of a task's own record, of registers and of the memory, and what an instruction's case says of it; each one
// equation. Nothing here knows of a run.
#![tactic(auto)]

mod codes;
mod quotients;
mod record;
mod values;

pub use codes::{code_of, units_of};
pub use quotients::{product, ratio};
pub use record::{child_record, failed, holding, in_state, newborn, passed};
pub use values::{constant, difference, less, passed_over, store, sum, value_at};
