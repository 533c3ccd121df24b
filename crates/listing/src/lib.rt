// What is asked of a decoded job list: its counts, sizes, lines and instructions. The tables stand beneath, in `tasklist`; the
// writer above, in `writer`.
#![tactic(auto)]

mod access;

pub use access::{
    body_count, body_instructions, body_size, footprint_count, footprint_lines, footprint_size,
    instruction_at, line_at, task_count,
};
