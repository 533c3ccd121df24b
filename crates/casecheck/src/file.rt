// The file of cases: the cases from its front, the parts of each, and the numbers in them, least byte first.
ghost use Rattle.std.specs.Prelude.{◌≡◌, ◌<◌, length, take, IfSome};
ghost use Rattle.casecheck.specs.File.{part, split_as, case_front, words_of};
ghost use Rattle.casecheck.specs.Cases.{case_split, NextCase};
ghost use Rattle.std.specs.Iterator.{at_most};

// A case: the list, the numbers of the memory (document 01: library), the calls, each as it stands behind its count.
#[derive(Clone, Copy)]
pub struct Case<'a> {
    pub list: &'a [u8],
    pub numbers: &'a [u8],
    pub calls: &'a [u8],
}

// The part at the front: a count of two bytes, and as many places of `width` bytes; and the bytes behind it. None where they
// end before.
#[tactic(auto, using(crate::proofs::FileLaws::part_short, crate::proofs::FileLaws::part_long, crate::proofs::FileLaws::split_at, crate::proofs::FileLaws::split_none))]
fn split_part(bytes: &[u8], width: u8) -> Option<(&[u8], &[u8])>
    ensures split { split_as result ≡ part width bytes.now }
    ensures shorter { IfSome result (λ p. length p.1.now < length bytes.now) }
{
    let (count, rest) = bytes.split_first_chunk::<2>()?;
    rest.split_at_checked(usize::from(u16::from_le_bytes(*count)) * usize::from(width))
}

// The case at the front, and the bytes behind it. None where they end within it.
#[tactic(auto, unfolding(crate::specs::File::case_front))]
fn split_case(bytes: &[u8]) -> Option<(Case<'_>, &[u8])>
    ensures split { case_split result ≡ case_front bytes.now }
    ensures shorter { IfSome result (λ p. length p.1.now < length bytes.now) }
{
    let (list, rest) = split_part(bytes, 1)?;
    let (numbers, rest) = split_part(rest, 4)?;
    let (calls, rest) = split_part(rest, 5)?;
    Some((
        Case {
            list,
            numbers,
            calls,
        },
        rest,
    ))
}

// The cases from the front, each None where the bytes end within it; it is the last then.
#[derive(Drop)]
pub struct Cases<'a>(pub &'a [u8]);

impl<'a> Iterator for Cases<'a> {
    type Item = Option<Case<'a>>;

    ghost next_gives = { λ s r t. NextCase s.0.now r t.0.now };

    ghost remaining = { λ s. at_most (length s.0.now) };

    fn next(&mut self) -> Option<Option<Case<'a>>> {
        if self.0.is_empty() {
            return None;
        }
        match split_case(self.0) {
            Some((case, rest)) => {
                self.0 = rest;
                Some(Some(case))
            }
            None => {
                self.0 = &[];
                Some(None)
            }
        }
    }
}

// The numbers, at the front of an array that is lent for them: as many as it has room for.
pub fn words<'a>(bytes: &[u8], room: &'a mut [u32; 16384]) -> &'a [u32]
    ensures { result.now ≡ take 16384 (words_of bytes.now) }
{
    let (fours, _) = bytes.as_chunks::<4>();
    let count = fours.len().min(16384);
    for (i, four) in fours[..count].iter().enumerate() {
        room[i] = u32::from_le_bytes(*four);
    }
    &room[..count]
}

// Whether every call, of five bytes, is a start, a step or an end.
pub fn kinds_known(calls: &[u8]) -> bool {
    calls.iter().step_by(5).all(|kind| *kind <= 2)
}
