// Bytes put one behind the other: words, and numbers in decimal. Nothing is put where there is no room.
// Kept: `out` and `at` stay two parameters. A writer that holds both would hold a `&mut`, and each clause would speak of the borrow
// where `out.new` says it now.
ghost use Rattle.std.specs.Prelude.{◌+◌, ◌≤◌, ◌↔◌, IsTrue, length};
ghost use Rattle.wording.specs.Wording.{followed};
ghost use Rattle.wording.specs.Promises.{PutAt, PutIf};

use crate::decimal::put_followed;

// The places that a number and the byte behind it need at most.
const NUMBER_ROOM: usize = 11;

// Puts bytes at `at`, where there is room for them, and gives the position behind them.
pub(crate) fn put_bytes(out: &mut [u8], at: usize, word: &[u8]) -> usize
    requires { at + length word.now ≤ length out.old }
    ensures { PutAt word.now out.old at out.new result }
{
    out[at..at + word.len()].copy_from_slice(word);
    at + word.len()
}

// Whether so many places are left from `at` on.
fn has_room(places: usize, at: usize, wanted: usize) -> bool
    ensures { IsTrue result ↔ (at + wanted ≤ places) }
{
    at <= places && wanted <= places - at
}

// Puts bytes at `at` and gives the position behind them; `at` itself where they don't fit.
pub fn put_word(out: &mut [u8], at: usize, word: &[u8]) -> usize
    ensures { PutIf (length word.now) word.now out.old at out.new result }
{
    if has_room(out.len(), at, word.len()) {
        return put_bytes(out, at, word);
    }
    at
}

// Puts a number and the byte behind it at `at`, and gives the position behind both; `at` itself where not 11 places are left.
#[tactic(auto, using(crate::proofs::DigitLaws::followed_most, crate::proofs::PutLaws::put_by))]
pub fn put_number(out: &mut [u8], at: usize, n: u32, behind: u8) -> usize
    ensures { PutIf 11 (followed n behind) out.old at out.new result }
{
    if has_room(out.len(), at, NUMBER_ROOM) {
        return put_followed(out, at, n, behind);
    }
    at
}
