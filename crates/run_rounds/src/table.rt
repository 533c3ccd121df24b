// The table of reports. It has a file of its own: a struct with an invariant takes in all that its file's `ghost use` names.
ghost use Rattle.run_rounds.specs.Sizes.{TableSize};

use crate::{REPORTS, Tally};

// The span, and the rounds and calls with 1 to 16 workers, those with P at place P - 1.
#[derive(Clone, Copy)]
pub struct RoundsTable {
    pub span: u32,
    pub reports: [Tally; REPORTS],
    // How large the numbers are.
    ghost size: { TableSize span reports },
}
