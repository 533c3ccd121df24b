// The accesses of a call.
ghost use Rattle.std.specs.Prelude.{◌<◌, ◌≤◌, ◌≡◌, [], ◌∷◌};
ghost use Rattle.semantics.specs.Plan.{needs_from};
ghost use Rattle.arrays.specs.Rows.{row};
ghost use Rattle.ahead.specs.Ahead.{access, accesses_of, wanted};

use crate::Access;
use crate::accesses::Wanted;
use arrays::row_of;

// What stands behind the accesses of a call.
const NONE: Access = Access {
    location: 0,
    asked: 0,
};

impl Wanted {
    // The accesses.
    pub fn as_slice(&self) -> &[Access]
        ensures { result.now ≡ wanted self.now }
    {
        &self.accesses[..self.count]
    }
}

// The accesses of a task's start: every location where its mode isn't 0, in that mode.
pub fn wanted_of(modes: &[u8; 8192], task: usize) -> Wanted
    ensures { task < 128 → accesses_of (wanted result) ≡ needs_from 0 (row task modes.now) }
{
    let mut accesses = [NONE; 64];
    let mut count = 0;
    for (location, &asked) in (0..64).zip(&row_of(modes, task)) {
        if asked != 0 {
            accesses[count] = Access { location, asked };
            count += 1;
        }
    }
    Wanted { count, accesses }
}

// One access. Beyond the locations it is one at location 0, in mode 0.
#[tactic(auto, unfolding(crate::specs::Ahead::accesses_of))]
pub fn wanted_at(location: usize, mode: u8) -> Wanted
    ensures one { location < 64 → accesses_of (wanted result) ≡ access location mode ∷ [] }
    ensures none { 64 ≤ location → accesses_of (wanted result) ≡ access 0 0 ∷ [] }
{
    let mut accesses = [NONE; 64];
    if location < 64 {
        accesses[0] = Access {
            location: location as u8,
            asked: mode,
        };
    }
    Wanted { count: 1, accesses }
}
