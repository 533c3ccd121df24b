// A task at its place in the order, and what the tasks ahead of it do to its accesses.
ghost use Rattle.std.specs.Prelude.{◌≡◌, ◌<◌, take, get_or};
ghost use Rattle.arrays.specs.Rows.{row};
ghost use Rattle.ahead.specs.Ahead.{past, hold_ahead, accesses_of};
ghost use Rattle.plans.specs.Steps.{AccessIn};

use crate::Stop;
use ahead::Access;
use arrays::Order;
use semantics::CallRefusal;

// A task at its place in the order, with the order and the modes, which are lent.
#[derive(Clone, Copy)]
pub struct Standing<'a> {
    pub order: &'a Order,
    pub modes: &'a [u8; 8192],
    pub task: usize,
    pub place: usize,
    // The task has a number.
    ghost within: { task < 128 },
}

impl Standing<'_> {
    // The task's own mode at a location, 0 where there is none.
    pub(crate) fn own_mode(&self, location: usize) -> u8
        ensures { result ≡ get_or (row self.now.task self.now.modes.now) location 0 }
    {
        arrays::mode_at(self.modes, self.task, location)
    }

    // What the tasks ahead do to these accesses: nothing, or 19, 20.
    #[tactic(auto, unfolding(ahead::specs::Ahead::searched_ahead))]
    pub(crate) fn look(&self, wanted: &[Access]) -> Result<(), CallRefusal>
        ensures { result ≡ past (hold_ahead self.now.modes.now (take self.now.place self.now.order.now.places) (accesses_of wanted.now)) }
    {
        let ahead = self.order.front(self.place);
        ahead::search_ahead(ahead, self.modes, wanted).hold.answer()
    }

    // What comes of an access: its fault by the mode tested, else what the tasks ahead do to it in the mode asked for.
    pub(crate) fn access(&self, location: usize, tested: u8, asked: u8) -> Result<(), Stop>
        ensures { AccessIn self.now.order.now.places self.now.modes.now self.now.task self.now.place location tested asked result }
    {
        grants::access_fault(self.own_mode(location), tested)?;
        self.look(ahead::wanted_at(location, asked).as_slice())?;
        Ok(())
    }
}
