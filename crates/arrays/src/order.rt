// The order of a run, as it is kept.
ghost use Rattle.std.specs.Prelude.{◌≡◌, length};

// The order of a run: the first `left` of its places are the unended tasks, front to back.
// Kept: an array and a count, since there is no heap. Any count is taken, also one above 128: then all places are the order.
#[derive(Clone, Copy)]
pub struct Order {
    pub places: [u8; 128],
    pub left: usize,
    // The array is as long as its type says: what a reference to an order tells a proof.
    ghost whole: { length places ≡ 128 },
}
