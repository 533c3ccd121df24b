// What the program rounds prints, on byte slices: the table of request 111 for 1 to 16 workers, in lines. Stands above
// `run_rounds`, which counts, and `wording`, which writes numbers and the line of a failed open.
#![tactic(auto)]

// How many places a lent slice needs: no table is longer.
pub const ROOM: usize = 640;

mod lines;
mod table;

pub use table::rounds_lines;
