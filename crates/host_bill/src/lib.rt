// What the program bill prints, on byte slices: the shares of request 114, in lines. Stands above `bill_wards`, which shares the
// bill, and `wording`, which writes words and numbers.
#![tactic(auto)]

// How many places a lent slice needs: no bill's lines are longer, 50 places for each of 128 lines and 52 for the last.
pub const ROOM: usize = 6452;

mod argument;
mod files;
mod lines;

pub use argument::pence_in;
pub use files::hand_run_files;
pub use lines::bill_lines;
