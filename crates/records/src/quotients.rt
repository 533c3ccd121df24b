// Request 108: "Both round to the nearest whole number, halves upward, on the exact value".
ghost use Rattle.std.specs.Prelude.{◌+◌, ◌*◌, ◌/◌, ◌^◌, ◌<◌};
ghost use Rattle.records.specs.Quotients.{QuotientIs};

use semantics::Fault;

// "Fault 4 is a result above 2^32 − 1; fault 5, tested first .., is a zero Rc." The rounding of both codes.
#[tactic(auto, using(crate::proofs::QuotientLaws::quotients), unfolding(semantics::specs::Rounding::rounded))]
fn divided(n: u64, d: u32) -> Result<u32, Fault>
    requires { n + d / 2 < 2 ^ 64 }
    ensures { QuotientIs n d result }
{
    if d == 0 {
        return Err(Fault::ZeroDivisor);
    }
    let by = u64::from(d);
    let half = by / 2;
    let result = (n + half) / by;
    u32::try_from(result).map_err(|_| Fault::TooLarge)
}

// "Code 11: Ra := Rb × Rc / 1000."
pub fn product(left: u32, right: u32) -> Result<u32, Fault>
    ensures { QuotientIs (left * right) 1000 result }
{
    divided(u64::from(left) * u64::from(right), 1000)
}

// "Code 12: Ra := 1000 × Rb / Rc."
pub fn ratio(left: u32, right: u32) -> Result<u32, Fault>
    ensures { QuotientIs (1000 * left) right result }
{
    divided(1000 * u64::from(left), right)
}
