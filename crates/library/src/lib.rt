// The numbers of a library file: read from its bytes, four for each, least first, and written back; and those of a table of
// weights, two bytes for each.
#![tactic(auto)]

ghost use Rattle.std.specs.Prelude.{◌≤◌, ◌≡◌, take};

// A library's numbers (document 01: entries): the first `count` values.
// Kept: an array and a count, since there is no heap. Callers see them as a slice.
#[derive(Clone, Copy)]
pub struct Numbers {
    pub values: [u32; 64],
    pub count: usize,
    ghost within: { count ≤ 64 },
}

impl Numbers {
    pub fn as_slice(&self) -> &[u32]
        ensures { result.now ≡ take self.now.count self.now.values }
    {
        &self.values[..self.count]
    }
}

// The entries of a memory: its first numbers, one for each location.
pub fn entries(memory: &[u32; 64], locations: u8) -> &[u32]
    ensures { result.now ≡ take locations memory.now }
{
    &memory[..usize::from(locations).min(64)]
}

mod reading;
mod writing;

pub use reading::{read_numbers, read_table};
pub use writing::write_numbers;
