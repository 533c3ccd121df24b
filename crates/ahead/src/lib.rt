// The search of the tasks ahead: what they do to the accesses of a call, and at how many it looked.
#![tactic(auto)]

ghost use Rattle.std.specs.Prelude.{◌≡◌};
ghost use Rattle.ahead.specs.Ahead.{past};

use semantics::CallRefusal;

mod accesses;
mod search;
mod wanted;

pub use accesses::Wanted;
pub use search::{passable, search_ahead};
pub use wanted::{wanted_at, wanted_of};

// What the tasks ahead do to the accesses of a call.
#[derive(Clone, Copy, Debug, PartialEq, Eq)]
pub enum Hold {
    // They all may stand ahead.
    Free,
    // One of them has mode write at one of the locations.
    Writer,
    // None has, and some may not stand ahead.
    Others,
}

impl Hold {
    // What a call is answered: nothing, or 19, 20.
    pub fn answer(self) -> Result<(), CallRefusal>
        ensures { result ≡ past self }
    {
        match self {
            Hold::Free => Ok(()),
            Hold::Writer => Err(CallRefusal::BehindWriter),
            Hold::Others => Err(CallRefusal::BehindOthers),
        }
    }
}

// What a search of the tasks ahead found, and at how many tasks it looked: the place where it stopped, counted from 1.
#[derive(Clone, Copy, Debug, PartialEq, Eq)]
pub struct Searched {
    pub hold: Hold,
    pub looked: usize,
}

// A location, and the mode that it is asked for in.
#[derive(Clone, Copy, Debug, PartialEq, Eq)]
pub struct Access {
    pub location: u8,
    pub asked: u8,
}
