// The bill, as the program's argument has it.
ghost use Rattle.std.specs.Prelude.{◌≡◌};
ghost use Rattle.host_bill.specs.Argument.{pence_in};

// The number that decimal digits make, where it is below 2^32.
#[tactic(auto, using(crate::proofs::ArgumentLaws::pence_empty))]
pub fn pence_in(text: &[u8]) -> Option<u32>
    ensures { result ≡ pence_in text.now }
{
    if text.is_empty() {
        return None;
    }
    let mut number: u32 = 0;
    for byte in text {
        let digit = match byte {
            b'0'..=b'9' => *byte - b'0',
            _ => return None,
        };
        number = number.checked_mul(10)?.checked_add(u32::from(digit))?;
    }
    Some(number)
}
