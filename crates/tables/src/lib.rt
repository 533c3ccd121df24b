// The children of a step: their numbers, their rows and places; each proved against one equation over lists. What a footprint
// gives them stands beneath, in `grants`; the rows and the order in `arrays`.
#![tactic(auto)]

ghost use Rattle.std.specs.Prelude.{◌+◌, ◌*◌, ◌%◌, ◌^◌, ◌≡◌, true, false};
ghost use Rattle.tables.specs.Children.{Fit};

mod children;
mod number;

pub use children::put_children;
pub use number::child_number;

// The children of one step by their numbers: that of the foremost, how far apart they are, and how many children there are.
#[derive(Clone, Copy)]
pub struct Block {
    pub first: usize,
    pub apart: u8,
    pub children: u8,
}

impl Block {
    // The number of child `i`, modulo 2^64.
    pub fn number(self, i: u8) -> usize
        ensures { result ≡ (self.first + i * self.apart) % 2 ^ 64 }
    {
        self.first
            .wrapping_add(usize::from(i) * usize::from(self.apart))
    }

    // Whether all children have a number below 128, and a place in an order of `left` tasks.
    pub fn fits(self, left: usize) -> bool
        ensures { (result ≡ true → Fit left self.first self.apart self.children) × (result ≡ false → Fit left self.first self.apart self.children → ⊥) }
    {
        if 128 < left || 128 - left < usize::from(self.children) {
            return false;
        }
        match self.children.checked_sub(1) {
            Some(last) => self.first < 128 && self.number(last) < 128,
            None => true,
        }
    }
}
