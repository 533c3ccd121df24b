// What the coordinator prints around its calls, on byte slices: a number on a line, the line of a refused open, of half a call, and
// the closing lines.
#![tactic(auto)]

mod closing;
mod decimal;
mod opening;
mod putting;

pub use closing::{closing_lines, half_line};
pub use decimal::put_followed;
pub use opening::{open_files, open_line};
pub use putting::{put_number, put_word};
