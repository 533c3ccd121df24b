// Where a list is refused, found through check alone.
ghost use Rattle.std.specs.Prelude.{◌≡◌};
ghost use Rattle.finding.specs.Where.{is_whole, shortest_whole};

use tasklist::Refusal;

// Whether a part has bytes and check's answer isn't refusal 1: no field is cut off.
#[tactic(auto, using(crate::proofs::Shortest::whole_none, crate::proofs::Shortest::whole_some))]
pub fn whole(bytes: &[u8]) -> bool
    ensures { result ≡ is_whole bytes.now }
{
    if bytes.is_empty() {
        return false;
    }
    !matches!(reader::check(bytes), Err(Refusal::Incomplete))
}

// The length of the shortest part from the front that cuts no field off; that of all bytes where there is none.
pub fn refused_end(bytes: &[u8]) -> usize
    ensures { result ≡ shortest_whole bytes.now }
{
    (0..bytes.len())
        .find(|&n| whole(&bytes[..n]))
        .unwrap_or(bytes.len())
}
