// The functions of the crate `benchlib` as a static library, which the benchmark's programs in C link. Each calls its namesake.
#![tactic(auto)]

ghost use Rattle.std.specs.Prelude.{◌≡◌};
ghost use Rattle.semantics.specs.Run.{fixed_weights};
ghost use Rattle.semantics.specs.Operations.{open_asked, sequential_asked};
ghost use Rattle.sequence.specs.Replays.{calls_of};
ghost use Rattle.benchlib.specs.Counts.{calls_in, left_in, replay_asked, lent_asked};

// How many tasks are left in the order of a fresh run; 0 where open refuses.
#[unsafe(no_mangle)]
pub extern "C" fn bench_open(list: &[u8], memory: &[u32]) -> usize
    ensures { result ≡ left_in (open_asked list.now memory.now fixed_weights) }
{
    benchlib::bench_open(list, memory)
}

// How many calls the sequential run makes; 0 where open refuses.
#[unsafe(no_mangle)]
pub extern "C" fn bench_sequential(list: &[u8], memory: &[u32]) -> u32
    ensures { result ≡ calls_in (sequential_asked list.now memory.now fixed_weights) }
{
    benchlib::bench_sequential(list, memory)
}

// How many of these calls are accepted, made one after the other; 0 where open refuses.
#[unsafe(no_mangle)]
pub extern "C" fn bench_replay(list: &[u8], memory: &[u32], kinds: &[u8], tasks: &[u32]) -> u32
    ensures { result ≡ calls_in (replay_asked list.now memory.now fixed_weights (calls_of kinds.now tasks.now)) }
{
    benchlib::bench_replay(list, memory, kinds, tasks)
}

// The same of the calls in the first 512 bytes of an input, each on the run that is lent to it.
#[unsafe(no_mangle)]
pub extern "C" fn bench_lent(list: &[u8], memory: &[u32], input: &[u8]) -> u32
    ensures { result ≡ calls_in (lent_asked list.now memory.now fixed_weights input.now) }
{
    benchlib::bench_lent(list, memory, input)
}
