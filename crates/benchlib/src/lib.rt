// What the benchmark calls: a run is opened under today's weights, or calls are made on it, and one number of it is given.
// Kept: a list and its memory stand side by side, and kinds and tasks of calls, since the programs in C pass them so.
#![tactic(auto)]

ghost use Rattle.std.specs.Prelude.{◌≡◌};
ghost use Rattle.semantics.specs.Run.{fixed_weights};
ghost use Rattle.semantics.specs.Operations.{open_asked, sequential_asked};
ghost use Rattle.sequence.specs.Replays.{calls_of};
ghost use Rattle.benchlib.specs.Counts.{calls_in, left_in, replay_asked, lent_asked};

use fresh::{open, todays_weights};
use sequence::{replay, sequential};

// How many tasks are left in the order of a fresh run; 0 where open refuses.
pub fn bench_open(list: &[u8], memory: &[u32]) -> usize
    ensures { result ≡ left_in (open_asked list.now memory.now fixed_weights) }
{
    open(list, memory, &todays_weights()).map_or(0, |run| run.order.left)
}

// How many calls the sequential run makes; 0 where open refuses.
pub fn bench_sequential(list: &[u8], memory: &[u32]) -> u32
    ensures { result ≡ calls_in (sequential_asked list.now memory.now fixed_weights) }
{
    sequential(list, memory, &todays_weights()).map_or(0, |run| run.calls)
}

// How many of these calls are accepted, made one after the other; 0 where open refuses.
pub fn bench_replay(list: &[u8], memory: &[u32], kinds: &[u8], tasks: &[u32]) -> u32
    ensures { result ≡ calls_in (replay_asked list.now memory.now fixed_weights (calls_of kinds.now tasks.now)) }
{
    replay(list, memory, &todays_weights(), kinds, tasks).map_or(0, |run| run.calls)
}

// The same of the calls in the first 512 bytes of an input, each on the run that is lent to it.
pub fn bench_lent(list: &[u8], memory: &[u32], input: &[u8]) -> u32
    ensures { result ≡ calls_in (lent_asked list.now memory.now fixed_weights input.now) }
{
    open(list, memory, &todays_weights()).map_or(0, |run| lent::lend(run, input).run.calls)
}
