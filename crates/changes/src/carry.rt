// A change by the task's new record and the call's weight, and the weights.
ghost use Rattle.std.specs.Prelude.{◌≡◌, ◌<◌, slice_index};
ghost use Rattle.changes.specs.Changes.{counted};

use crate::Change;
use semantics::Record;

// A number of the table of weights: start, end, then the codes.
pub fn weight_at(weights: [u16; 15], place: usize) -> u32
    requires { place < 15 }
    ensures { (result ≡ slice_index weights place) × (result < 65536) }
{
    u32::from(weights[place])
}

// "Each accepted call adds 1 to calls and its weight to record and run." No task is made.
pub fn changed(own: Record, weight: u32) -> Change
    ensures { result ≡ counted own weight }
{
    Change {
        own: Record {
            weight: own.weight.wrapping_add(weight),
            ..own
        },
        weight,
        made: None,
    }
}
