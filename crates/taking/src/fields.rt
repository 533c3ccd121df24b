// Marks, numbers and lines at the front of the bytes, each taken only when whole and then tested.
ghost use Rattle.std.specs.Prelude.{◌≡◌};
ghost use Rattle.tasklist.specs.Fields.{tag, number, counted};
ghost use Rattle.tasklist.specs.Decode.{line_limit, line};
ghost use Rattle.tasklist.specs.Answers.{refusal_number};
ghost use Rattle.taking.specs.Fronts.{taken, tag_taken};

use tasklist::{Line, Refusal};

// A mark: 4A and `second`.
#[tactic(auto, using(crate::proofs::FieldLaws::fields))]
pub fn take_tag(bytes: &[u8], second: u8) -> Result<&[u8], Refusal>
    ensures { tag_taken result ≡ tag second bytes.now }
{
    let [first, next, rest @ ..] = bytes else {
        return Err(Refusal::Incomplete);
    };
    if *first != 0x4A || *next != second {
        return Err(Refusal::Tag);
    }
    Ok(rest)
}

// A number from `low` to `high`, else `refusal`.
#[tactic(auto, using(crate::proofs::FieldLaws::fields))]
pub fn take_number(
    bytes: &[u8],
    low: u8,
    high: u8,
    refusal: Refusal,
) -> Result<(u8, &[u8]), Refusal>
    ensures { taken result ≡ number low high (refusal_number refusal) bytes.now }
{
    let [n, rest @ ..] = bytes else {
        return Err(Refusal::Incomplete);
    };
    if !(low..=high).contains(n) {
        return Err(refusal);
    }
    Ok((*n, rest))
}

// A mark and a count of at most `most`, else `refusal`.
#[tactic(auto, unfolding(tasklist::specs::Fields::counted))]
pub fn take_counted(
    bytes: &[u8],
    second: u8,
    most: u8,
    refusal: Refusal,
) -> Result<(u8, &[u8]), Refusal>
    ensures { taken result ≡ counted second most (refusal_number refusal) bytes.now }
{
    let rest = take_tag(bytes, second)?;
    take_number(rest, 0, most, refusal)
}

// The number that a line's value is below, by its kind.
// Kept: the kind is a number, as the bytes and the tables hold it.
#[tactic(auto, unfolding(tasklist::specs::Decode::line_limit))]
fn limit_of(locations: u8, kind: u8) -> u8
    ensures { result ≡ line_limit locations kind }
{
    match kind {
        0 | 1 | 4 => locations,
        2 | 3 | 5 => 4,
        _ => 0,
    }
}

// A line of a footprint.
#[tactic(auto, using(crate::proofs::FieldLaws::fields))]
pub fn take_line(bytes: &[u8], locations: u8) -> Result<(Line, &[u8]), Refusal>
    ensures { taken result ≡ line locations bytes.now }
{
    let [kind, value, rest @ ..] = bytes else {
        return Err(Refusal::Incomplete);
    };
    let line = Line {
        kind: *kind,
        value: *value,
    };
    if line.value < limit_of(locations, line.kind) {
        Ok((line, rest))
    } else {
        Err(Refusal::Footprint)
    }
}
