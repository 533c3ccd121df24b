// Values of registers and of the memory.
ghost use Rattle.std.specs.Prelude.{◌≡◌, ◌+◌, ◌-◌, ◌%◌, ◌^◌, if◌then◌else◌, nat_lt, slice_index, slice_set};
ghost use Rattle.semantics.specs.Plan.{passed_over};
ghost use Rattle.semantics.specs.Effect.{add};
ghost use Rattle.semantics.specs.Call.{edited};

// A constant as 32 bits.
pub fn constant(value: u16) -> u32
    ensures { result ≡ value % 2 ^ 32 }
{
    u32::from(value)
}

// "sums and differences are modulo 2^32"
pub fn difference(left: u32, right: u32) -> u32
    ensures { result ≡ (left + 2 ^ 32 - right) % 2 ^ 32 }
{
    left.wrapping_sub(right)
}

// "1 if Rb < Rc, else 0"
pub fn less(left: u32, right: u32) -> u32
    ensures { result ≡ (if nat_lt left right then 1 else 0) }
{
    u32::from(left < right)
}

// "if Ra is 0, pass over the next b instructions"
#[tactic(auto, using(crate::proofs::ValueLaws::tested))]
pub fn passed_over(test: u32, length: u8) -> u8
    ensures { result ≡ passed_over test length }
{
    if test == 0 { length } else { 0 }
}

// The number at a location, 0 where there is none.
pub fn value_at(memory: &[u32; 64], location: usize) -> u32
    ensures { result ≡ slice_index memory.now location }
{
    memory.get(location).copied().unwrap_or(0)
}

// Puts a number at a location; leaves the memory where there is no such location.
pub fn store(memory: &mut [u32; 64], location: usize, value: u32)
    ensures { memory.new ≡ slice_set memory.old location value }
{
    if location < memory.len() {
        memory[location] = value;
    }
}

// Request 107: "entry number Ra := entry + Rb modulo 2^32". Adds a number to that at a location; leaves the memory where there is
// no such location.
#[tactic(auto, unfolding(semantics::specs::Call::edited))]
pub fn sum(memory: &mut [u32; 64], location: usize, value: u32)
    ensures { memory.new ≡ edited (add location value) memory.old }
{
    if location < memory.len() {
        memory[location] = memory[location].wrapping_add(value);
    }
}
