// Taking the fields of a job list's bytes: marks, numbers, lines and instructions, each taken only when whole and then tested.
#![tactic(auto)]

mod fields;
mod instructions;

pub use fields::{take_counted, take_line, take_number, take_tag};
pub use instructions::take_instruction;
