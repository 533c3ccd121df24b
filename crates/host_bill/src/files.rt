// The hand run by the bytes of the two files.
ghost use Rattle.library.specs.Library.{memory_of};
ghost use Rattle.semantics.specs.Run.{fixed_weights};
ghost use Rattle.semantics.specs.Operations.{sequential_asked};
ghost use Rattle.runtime.specs.Asked.{OpenedAs};

use runtime::{OpenRefusal, Run};

// Runs a job list by hand with the numbers of a library, four bytes for each, under today's weights.
// Kept: two lines as in `wording::open_files`, which says why.
pub fn hand_run_files(jobs: &[u8], numbers: &[u8]) -> Result<Run, OpenRefusal>
    ensures { OpenedAs jobs.now fixed_weights (sequential_asked jobs.now (memory_of numbers.now) fixed_weights) result }
{
    let memory = library::read_numbers(numbers);
    sequence::sequential(jobs, memory.as_slice(), &fresh::todays_weights())
}
