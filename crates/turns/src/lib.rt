// The move of request 112, one side's against any other's: the next call of the foremost task. Stands above the runtime and uses
// its promises only.
#![tactic(auto)]

ghost use Rattle.std.specs.Prelude.{◌≡◌};
ghost use Rattle.turns.specs.declared.MoveRefusal.TheVariants.{Call};
ghost use Rattle.turns.specs.Moves.{kind_number, move_refusal_number};

use runtime::Run;
use semantics::CallRefusal;

// Which call is the next one of a task.
#[derive(Clone, Copy, Debug, PartialEq, Eq)]
pub enum Kind {
    Start,
    Step,
    End,
}

// "0 start, 1 step, 2 end"
impl From<Kind> for u8 {
    ghost from_gives = { λ kind n. n ≡ kind_number kind };

    fn from(kind: Kind) -> u8 {
        match kind {
            Kind::Start => 0,
            Kind::Step => 1,
            Kind::End => 2,
        }
    }
}

// Why the move isn't made.
#[derive(Clone, Copy, Debug, PartialEq, Eq)]
pub enum MoveRefusal {
    // 25: no task is left.
    NoneLeft,
    // The foremost task's next call is refused: never on a run that came from open, the sequential run or calls.
    Call(CallRefusal),
}

impl From<CallRefusal> for MoveRefusal {
    ghost from_gives = { λ k e. e ≡ Call k };

    fn from(refusal: CallRefusal) -> MoveRefusal {
        MoveRefusal::Call(refusal)
    }
}

// 25, or the number of the call's refusal.
impl From<MoveRefusal> for u8 {
    ghost from_gives = { λ k n. n ≡ move_refusal_number k };

    fn from(refusal: MoveRefusal) -> u8 {
        match refusal {
            MoveRefusal::NoneLeft => 25,
            MoveRefusal::Call(k) => u8::from(k),
        }
    }
}

// What the move hands back: the answer, and the run after it, the very same one where it isn't made.
// Kept: it hands the changed run back with the answer, as a call does; there is a run either way.
#[derive(Clone, Copy)]
pub struct Moved {
    pub answer: Result<(), MoveRefusal>,
    pub run: Run,
}

mod moves;

pub use moves::{foremost_move, next_kind};
