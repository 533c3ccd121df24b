// The runtime: a run by value, and what is done with it. Every promise is an equation with the model of the crate
// `semantics`, for every run that came from open, the sequential run or calls; on any other run a call ends safely.
#![tactic(auto)]

ghost use Rattle.std.specs.Prelude.{◌≡◌};
ghost use Rattle.runtime.specs.declared.OpenRefusal.TheVariants.{List};
ghost use Rattle.runtime.specs.Asked.{open_number};

use arrays::Order;
use semantics::{CallRefusal, Record};
use tasklist::{Refusal, Tables};

// A run (document 01: an open run): the accepted list, the memory (the entries), a record for each task with its row of 64
// modes, and the order of the unended tasks.
// Kept: records and modes in two arrays, in fixed memory, as the project's rule has it. A step lends each field by itself.
#[derive(Clone, Copy)]
pub struct Run {
    pub tables: Tables,
    pub memory: [u32; 64],
    pub records: [Record; 128],
    pub modes: [u8; 8192],
    pub order: Order,
    // calls accepted, and their weight
    pub calls: u32,
    pub weight: u32,
    // the table of weights that it was opened with (request 105): start, end, then the codes
    pub weights: [u16; 15],
}

// What start, step and end hand back: the answer, and the run after the call, the very same one where it is refused.
// Kept: a call hands the changed run back with the answer, as the project's rule has it; there is a run either way.
#[derive(Clone, Copy)]
pub struct Called {
    pub answer: Result<(), CallRefusal>,
    pub run: Run,
}

// Why open refuses.
#[derive(Clone, Copy, Debug, PartialEq, Eq)]
pub enum OpenRefusal {
    // 1 to 7: the list is refused.
    List(Refusal),
    // 8: the memory's length is not C.
    Length,
    // 21: the table of weights has another length.
    Table,
    // 22: a weight is not in 1 to 1000.
    Weight,
}

impl From<Refusal> for OpenRefusal {
    ghost from_gives = { λ k e. e ≡ List k };

    fn from(refusal: Refusal) -> OpenRefusal {
        OpenRefusal::List(refusal)
    }
}

// Document 01's number of the refusal.
impl From<OpenRefusal> for u8 {
    ghost from_gives = { λ k n. n ≡ open_number k };

    #[tactic(auto, unfolding(crate::specs::Asked::open_number))]
    fn from(refusal: OpenRefusal) -> u8 {
        match refusal {
            OpenRefusal::List(k) => u8::from(k),
            OpenRefusal::Length => 8,
            OpenRefusal::Table => 21,
            OpenRefusal::Weight => 22,
        }
    }
}

// One task's record and its modes.
#[derive(Clone, Copy)]
pub struct Recorded {
    pub task: Record,
    pub modes: [u8; 64],
}

mod calls;
mod put;
mod step;
