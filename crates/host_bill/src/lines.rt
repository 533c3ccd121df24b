// The lines of a bill.
ghost use Rattle.std.specs.Prelude.{◌+◌, ◌*◌, ◌^◌, ◌≤◌, ◌<◌, ◌≡◌, length, take};
ghost use Rattle.wording.specs.Wording.{refused_line};
ghost use Rattle.wording.specs.Promises.{PutAt};
ghost use Rattle.host_bill.specs.Lines.{told, ward_lines, room};
ghost use Rattle.host_bill.specs.Promises.{RunPrinted, BillPrinted};

use crate::ROOM;
use bill_shares::PLACES;
use runtime::{OpenRefusal, Run};
use wording::{put_number, put_word};

// Puts a line: a word with a number, a weight and pence.
fn put_line(out: &mut [u8], at: usize, word: &[u8], number: u32, weight: u32, pence: u32) -> usize
    requires { at + length word.now + 46 ≤ length out.old }
    ensures put { PutAt (told word.now number weight pence) out.old at out.new result }
    ensures most { result ≤ at + length word.now + 46 }
{
    let first = put_word(out, at, word);
    let second = put_number(out, first, number, b' ');
    let third = put_word(out, second, b"weight ");
    let fourth = put_number(out, third, weight, b' ');
    let fifth = put_word(out, fourth, b"pence ");
    put_number(out, fifth, pence, b'\n')
}

// Puts a line for each ward at the front.
fn put_wards(numbers: &[u8], weights: &[u32], pence: &[u32], out: &mut [u8]) -> usize
    requires { 50 * length numbers.now ≤ length out.old }
    ensures put { PutAt (ward_lines numbers.now weights.now pence.now) out.old 0 out.new result }
    ensures most { result ≤ 50 * length numbers.now }
{
    let mut stop = 0;
    for ((number, weight), pence) in numbers.iter().zip(weights).zip(pence) {
        stop = put_line(out, stop, b"job ", u32::from(*number), *weight, *pence);
    }
    stop
}

// Puts the line of a refusal at the front.
fn put_refused(out: &mut [u8], number: u8) -> usize
    requires { room ≤ length out.old }
    ensures put { PutAt (refused_line number) out.old 0 out.new result }
    ensures most { result ≤ 19 }
{
    let at = put_word(out, 0, b"refused ");
    put_number(out, at, u32::from(number), b'\n')
}

// Puts all that is printed of a run at the front: the line of a refusal, or a line for each ward and the sums.
fn put_bill(run: Run, bill: u32, out: &mut [u8]) -> usize
    requires { room ≤ length out.old }
    ensures { RunPrinted run bill out.old out.new result }
{
    let mut pence = [0u32; PLACES];
    if let Err(refusal) = bill_wards::shares(run, bill, &mut pence) {
        return put_refused(out, u8::from(refusal));
    }
    let wards = bill_wards::wards_of(run);
    let count = wards.count;
    let at = put_wards(
        &wards.numbers[..count],
        &wards.weights[..count],
        &pence[..count],
        out,
    );
    // The wards weigh no more than the run, whose weight has 32 bits.
    let whole = u32::try_from(bill_shares::whole_of(wards.weights, count)).unwrap_or(0);
    put_line(
        out,
        at,
        b"wards ",
        u32::try_from(count).unwrap_or(0),
        whole,
        bill,
    )
}

// All that is printed of a run that was opened, run by hand or led on by calls, at the front of `out`: the line of a failed open,
// or the run's. Nothing where `out` has fewer than ROOM places.
pub fn bill_lines(opened: Result<Run, OpenRefusal>, bill: u32, out: &mut [u8]) -> usize
    ensures { BillPrinted opened bill out.old out.new result }
{
    if out.len() < ROOM {
        return 0;
    }
    match opened {
        Ok(run) => put_bill(run, bill, out),
        Err(refusal) => put_refused(out, u8::from(refusal)),
    }
}
