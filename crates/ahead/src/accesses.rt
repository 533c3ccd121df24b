// The accesses of a call, as they are kept.
ghost use Rattle.std.specs.Prelude.{◌≤◌, ◌≡◌, length};

use crate::Access;

// The accesses of a call, at most 64.
// Kept: an array and a count, since there is no heap. Callers see them as a slice.
#[derive(Clone, Copy)]
pub struct Wanted {
    pub(crate) count: usize,
    pub(crate) accesses: [Access; 64],
    ghost few: { count ≤ 64 },
    // The array is as long as its type says: what a reference to accesses tells a proof.
    ghost whole: { length accesses ≡ 64 },
}
