// The rounds of request 111: how many a publication takes with so many workers. Stands above the runtime and uses its promises
// only; what a round is, says the crate `model_rounds`.
#![tactic(auto)]

ghost use Rattle.std.specs.Prelude.{◌≡◌};
ghost use Rattle.run_rounds.specs.declared.RoundsRefusal.TheVariants.{Unopened};
ghost use Rattle.run_rounds.specs.Reports.{rounds_number};

use runtime::OpenRefusal;

// "P workers, 1 to 16"
pub const MOST_WORKERS: u32 = 16;
// A report for each number of workers that may be asked for.
pub const REPORTS: usize = MOST_WORKERS as usize;
// "with 128 workers": one for each task there can be.
pub const ALL_WORKERS: usize = 128;
// No publication takes more rounds: 34 calls for each of 128 tasks.
pub const MOST_ROUNDS: u32 = 4352;

// Why the rounds are not counted.
#[derive(Clone, Copy, Debug, PartialEq, Eq)]
pub enum RoundsRefusal {
    // 24: the workers are not 1 to 16.
    Workers,
    // Open refuses the list, the memory or the weights.
    Unopened(OpenRefusal),
}

impl From<OpenRefusal> for RoundsRefusal {
    ghost from_gives = { λ k e. e ≡ Unopened k };

    fn from(refusal: OpenRefusal) -> RoundsRefusal {
        RoundsRefusal::Unopened(refusal)
    }
}

// Document 02's number of the refusal.
impl From<RoundsRefusal> for u8 {
    ghost from_gives = { λ k n. n ≡ rounds_number k };

    fn from(refusal: RoundsRefusal) -> u8 {
        match refusal {
            RoundsRefusal::Workers => 24,
            RoundsRefusal::Unopened(k) => u8::from(k),
        }
    }
}

// The report: the rounds with the workers asked for, the calls in them, and the span, which is the rounds with 128 workers.
#[derive(Clone, Copy)]
pub struct Rounded {
    pub rounds: u32,
    pub calls: u32,
    pub span: u32,
}

// The calls of a round: the first `count` kinds, each of the task beside it.
// Kept: kinds and tasks in two arrays, since `sequence::all_called` takes two slices, and any byte as a kind.
#[derive(Clone, Copy)]
pub(crate) struct Batch {
    pub count: u8,
    pub kinds: [u8; ALL_WORKERS],
    pub tasks: [u32; ALL_WORKERS],
}

// How many rounds there were, and how many calls in them.
#[derive(Clone, Copy)]
pub struct Tally {
    pub rounds: u32,
    pub calls: u32,
}

mod counting;
mod looking;
mod table;

pub use counting::{publication_rounds, rounds_table};
pub use table::RoundsTable;
