// The calls of the input, which comes in pieces of at most 511 bytes: the crate `lent` makes them on the one run.
ghost use Rattle.std.specs.Prelude.{◌*◌, ◌≤◌, ◌≡◌, ◌++◌, length};
ghost use Rattle.tasklist.specs.Encode.{joined};
ghost use Rattle.wording.specs.Wording.{line};
ghost use Rattle.wording.specs.Promises.{PutAt};
ghost use Rattle.transcript.specs.Promises.{exceeds, pending_bytes, FedAs};

use crate::Fed;
use runtime::Run;
use wording::put_followed;

// A piece behind the byte that waited, if there is one, in a buffer that holds both.
fn in_one<'a>(pending: Option<u8>, piece: &[u8], buffer: &'a mut [u8; 512]) -> &'a [u8]
    requires { length piece.now ≤ 511 }
    ensures { result.now ≡ pending_bytes pending ++ piece.now }
{
    let mut from = 0;
    if let Some(byte) = pending {
        buffer[0] = byte;
        from = 1;
    }
    buffer[from..from + piece.len()].copy_from_slice(piece);
    &buffer[..from + piece.len()]
}

// Puts the lines of numbers at the front of `out`, and gives the position behind them.
// Kept: wording has such a loop over the memory. One over both would first copy every answer into a number of 32 bits and ask for
// room by the text's length, in the place of 4 for each answer: that is no shorter than this loop.
fn put_lines(answers: &[u8], out: &mut [u8]) -> usize
    requires { 4 * length answers.now ≤ length out.old }
    ensures put { PutAt (joined line answers.now) out.old 0 out.new result }
    ensures most { result ≤ 4 * length answers.now }
{
    let mut at = 0;
    for answer in answers {
        at = put_followed(out, at, u32::from(*answer), 10);
    }
    at
}

// Whether a piece is left, by its length and the places for its lines.
#[tactic(auto, using(std::proofs::lemmas::Bool::Decides::nat_tests), unfolding(crate::specs::Promises::exceeds))]
fn exceeds(piece: usize, out: usize) -> bool
    ensures { result ≡ exceeds piece out }
{
    511 < piece || out / 4 <= piece / 2
}

// Takes a piece of input behind a pending byte: lends the run to its calls and writes their lines at the front of `out`. A
// piece's odd last byte waits for the next piece. None of it is used where it has more than 511 bytes, or `out` has not 4
// places for each call that could be in it.
// Kept: run and byte stand side by side, as in its promise and in the law of the whole transcript. A struct of both would be taken
// apart in each of them.
pub fn feed(run: Run, pending: Option<u8>, piece: &[u8], out: &mut [u8]) -> Fed
    ensures { FedAs run pending piece.now out.old out.new result }
{
    if exceeds(piece.len(), out.len()) {
        return Fed {
            run,
            pending,
            used: 0,
            wrote: 0,
        };
    }
    let mut buffer = [0u8; 512];
    let input = in_one(pending, piece, &mut buffer);
    let (calls, rest) = input.split_at(input.len() / 2 * 2);
    let given = lent::lend(run, calls);
    Fed {
        run: given.run,
        pending: rest.first().copied(),
        used: piece.len(),
        wrote: put_lines(&given.answers[..calls.len() / 2], out),
    }
}
