// Numbers in decimal.
ghost use Rattle.std.specs.Prelude.{◌+◌, ◌≤◌, ◌≡◌, length};
ghost use Rattle.std.proofs.lemmas.List.Edits.{sets};
ghost use Rattle.wording.specs.Wording.{followed};

use crate::putting::put_bytes;
use itoa::Buffer;

// Puts a number and the byte behind it at `at`, and gives the position behind both.
#[tactic(auto, using(crate::proofs::DigitLaws::decimal_length))]
pub fn put_followed(out: &mut [u8], at: usize, n: u32, behind: u8) -> usize
    requires { at + length (followed n behind) ≤ length out.old }
    ensures { (result ≡ at + length (followed n behind)) × (out.new ≡ sets out.old at (followed n behind)) }
{
    let mut text = Buffer::new();
    let last = put_bytes(out, at, text.format(n).as_bytes());
    out[last] = behind;
    last + 1
}
