// The search of the tasks ahead: what they do to the accesses of a call.
ghost use Rattle.std.specs.Prelude.{◌≡◌};
ghost use Rattle.semantics.specs.Access.{compatible};
ghost use Rattle.ahead.specs.Ahead.{accesses_of, writes_one, passes_all, held_by, searched_ahead};

use crate::{Access, Hold, Searched};
use arrays::mode_at;

// Whether a task with this mode may stand ahead of an access that asks for `asked`.
#[tactic(auto, using(crate::proofs::SearchLaws::compatibles))]
pub fn passable(mode: u8, asked: u8) -> bool
    ensures { result ≡ compatible mode asked }
{
    match mode {
        0 => asked <= 3,
        1 => asked <= 1,
        2 => asked == 0,
        3 => matches!(asked, 0 | 3),
        _ => false,
    }
}

// What one task ahead does to these accesses.
#[tactic(auto, using(crate::proofs::SearchLaws::looks))]
fn hold_of(modes: &[u8; 8192], task: usize, wanted: &[Access]) -> Hold
    ensures { result ≡ held_by (writes_one modes.now (accesses_of wanted.now) task) (passes_all modes.now (accesses_of wanted.now) task) }
{
    let mut hold = Hold::Free;
    for access in wanted {
        let mode = mode_at(modes, task, usize::from(access.location));
        if mode == 2 {
            return Hold::Writer;
        }
        if !passable(mode, access.asked) {
            hold = Hold::Others;
        }
    }
    hold
}

// The search of a task, with these tasks ahead of it, for what holds these accesses back: task by task from the front, to the
// first that has mode write at one of the locations, or to the task itself.
#[tactic(auto, using(crate::proofs::SearchLaws::searches))]
pub fn search_ahead(tasks: &[u8], modes: &[u8; 8192], wanted: &[Access]) -> Searched
    ensures { result ≡ searched_ahead modes.now tasks.now (accesses_of wanted.now) }
{
    let mut hold = Hold::Free;
    for (place, &task) in tasks.iter().enumerate() {
        match hold_of(modes, usize::from(task), wanted) {
            Hold::Writer => {
                return Searched {
                    hold: Hold::Writer,
                    looked: place + 1,
                }
            }
            Hold::Others => hold = Hold::Others,
            Hold::Free => {}
        }
    }
    Searched {
        hold,
        looked: tasks.len() + 1,
    }
}
