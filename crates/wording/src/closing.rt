// What is printed when the input has ended.
ghost use Rattle.std.specs.Prelude.{◌+◌, ◌≤◌, ◌≡◌, length};
ghost use Rattle.tasklist.specs.Encode.{joined};
ghost use Rattle.runtime.specs.View.{model};
ghost use Rattle.wording.specs.Wording.{line, closing, totals};
ghost use Rattle.wording.specs.Promises.{Wrote, PutAt, given, half_bytes};

use crate::decimal::put_followed;
use crate::putting::put_number;
use runtime::Run;

// Half a call at the input's end, of which the first byte waits: its line, 18, at the front of `out`, or nothing.
pub fn half_line(pending: Option<u8>, out: &mut [u8]) -> usize
    ensures { Wrote (given 3 out.old (half_bytes pending)) out.old out.new result }
{
    let Some(_) = pending else {
        return 0;
    };
    if out.len() < 3 {
        return 0;
    }
    put_followed(out, 0, 18, 10)
}

// Puts the memory at the front, each location on a line, and gives the position behind it.
fn put_memory(run: Run, out: &mut [u8]) -> usize
    requires { 704 ≤ length out.old }
    ensures put { PutAt (joined line (model run).memory) out.old 0 out.new result }
    ensures most { result ≤ 704 }
{
    let mut at = 0;
    for number in library::entries(&run.memory, run.tables.locations) {
        at = put_number(out, at, *number, b'\n');
    }
    at
}

// Puts calls, weight and tasks left at `at`, on one line, and gives the position behind it.
fn put_totals(out: &mut [u8], at: usize, calls: u32, weight: u32, left: u32) -> usize
    requires { at + 33 ≤ length out.old }
    ensures put { PutAt (totals calls weight left) out.old at out.new result }
    ensures most { result ≤ at + 33 }
{
    let second = put_number(out, at, calls, b' ');
    let third = put_number(out, second, weight, b' ');
    put_number(out, third, left, b'\n')
}

// The last lines, at the front of `out`: the memory, each location on a line, then calls, weight and tasks left. Nothing where
// `out` has not 737 places.
pub fn closing_lines(run: Run, out: &mut [u8]) -> usize
    ensures { Wrote (given 737 out.old (closing (model run))) out.old out.new result }
{
    if out.len() < 737 {
        return 0;
    }
    let at = put_memory(run, out);
    // An order has 128 places.
    let left = u32::try_from(run.order.as_slice().len()).unwrap_or(0);
    put_totals(out, at, run.calls, run.weight, left)
}
