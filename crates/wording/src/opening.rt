// Opening a run by the bytes of the two files, and the line of a failed open.
ghost use Rattle.library.specs.Library.{memory_of};
ghost use Rattle.semantics.specs.Run.{fixed_weights};
ghost use Rattle.semantics.specs.Operations.{open_asked};
ghost use Rattle.runtime.specs.Asked.{OpenedAs};
ghost use Rattle.wording.specs.Promises.{Wrote, given, open_bytes};

use crate::decimal::put_followed;
use crate::putting::put_bytes;
use runtime::{OpenRefusal, Run};

// Opens a run of a job list with the numbers of a library, four bytes for each, under today's weights.
// Kept: `host_bill` and `host_rounds` each have two such lines for what they do with them. One function over the three would take what
// is done as a closure: it would require that it can be called, and its contract would speak of the references that it is called with.
// The bytes of the two files stand side by side, as they are read: a struct of both would be made for the call and taken apart in it.
pub fn open_files(jobs: &[u8], numbers: &[u8]) -> Result<Run, OpenRefusal>
    ensures { OpenedAs jobs.now fixed_weights (open_asked jobs.now (memory_of numbers.now) fixed_weights) result }
{
    let memory = library::read_numbers(numbers);
    fresh::open(jobs, memory.as_slice(), &fresh::todays_weights())
}

// The line of a failed open, as `refused 1`, at the front of `out`; nothing where open accepts.
pub fn open_line(answer: Result<(), OpenRefusal>, out: &mut [u8]) -> usize
    ensures { Wrote (given 11 out.old (open_bytes answer)) out.old out.new result }
{
    let Err(refusal) = answer else {
        return 0;
    };
    if out.len() < 11 {
        return 0;
    }
    let number = u8::from(refusal);
    let at = put_bytes(out, 0, b"refused ");
    put_followed(out, at, u32::from(number), 10)
}
