// What the coordinator prints, on byte slices: the line of each call, between those of the crate `wording`. The program above it
// only moves bytes.
#![tactic(auto)]

use runtime::Run;

// A piece of input that was taken: the run after its calls, the byte that waits for the next piece, how many of its bytes
// were used, and how many bytes were written.
#[derive(Clone, Copy)]
pub struct Fed {
    pub run: Run,
    pub pending: Option<u8>,
    pub used: usize,
    pub wrote: usize,
}

mod pieces;

pub use pieces::feed;
