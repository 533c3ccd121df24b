// The order of a run: the unended tasks, front to back.
ghost use Rattle.std.specs.Prelude.{◌+◌, ◌≤◌, ◌<◌, ◌≡◌, take};
ghost use Rattle.arrays.specs.Places.{unended, place_of, insert_at, without};

use crate::Order;

impl Order {
    // The first `count` places, all of them from 128 on.
    pub fn front(&self, count: usize) -> &[u8]
        ensures { result.now ≡ take count self.now.places }
    {
        &self.places[..count.min(128)]
    }

    // The unended tasks.
    pub fn as_slice(&self) -> &[u8]
        ensures { result.now ≡ unended self.now }
    {
        self.front(self.left)
    }

    // The first place of `task` in the order.
    #[tactic(auto, unfolding(crate::specs::Places::place_of))]
    pub fn position(&self, task: u8) -> Option<usize>
        ensures { result ≡ place_of task (unended self.now) }
    {
        self.as_slice().iter().position(|&number| number == task)
    }

    // Puts `task` at place `at` of the order, those from there on moved back by one; leaves it where there is no room.
    #[tactic(auto, using(crate::proofs::OrderLaws::inserted))]
    pub fn insert(&mut self, at: usize, task: u8)
        ensures { at ≤ self.old.left → self.old.left < 128 → (self.new.left ≡ self.old.left + 1) × (unended self.new ≡ insert_at at task (unended self.old)) }
    {
        if at <= self.left && self.left < 128 {
            self.places.copy_within(at..self.left, at + 1);
            self.places[at] = task;
            self.left += 1;
        }
    }

    // Takes the task at place `at` out of the order, those behind it moved forward by one; leaves it where there is none. Where more
    // tasks are counted than there are places, the count alone falls.
    #[tactic(auto, using(crate::proofs::OrderLaws::removed))]
    pub fn remove(&mut self, at: usize)
        ensures out { at < self.old.left → self.old.left ≤ 128 → (self.new.left + 1 ≡ self.old.left) × (unended self.new ≡ without at (unended self.old)) }
        ensures fewer { at < self.old.left → self.new.left + 1 ≡ self.old.left }
    {
        if at < self.left {
            if self.left <= 128 {
                self.places.copy_within(at + 1..self.left, at);
            }
            self.left -= 1;
        }
    }
}
