// A bill shared in proportion to weights, rounded down; remaining pence go one each to the largest remainders, the lower place
// first among equals. Numbers alone: it knows of no run.
#![tactic(auto)]

ghost use Rattle.std.specs.Prelude.{ℕ, ◌+◌, ◌-◌, ◌*◌, ◌/◌, ◌%◌, ◌≤◌, ◌<◌, ◌≡◌, cond, ltb};
ghost use Rattle.std.specs.Prelude.{◌++◌, length, take, get_or, map, replicate};
ghost use Rattle.bill_shares.specs.Shares.{whole, floors, remainders, rank_of, listed, shares};

use std::marker::Model;

// As many weights as can be shared at once.
// Kept: an array and a count beside it are what the two public functions take. A slice may hold more numbers than 64 bits can sum,
// and at most PLACES of them would ask more of callers.
pub const PLACES: usize = 128;

// The first `count` values together.
pub fn whole_of(values: [u32; PLACES], count: usize) -> u64
    ensures { result ≡ whole (take count values) }
{
    let counted = values.iter().take(count);
    counted.map(|value| u64::from(*value)).sum()
}

// What one weight comes to: its share, rounded down, and what the rounding leaves of it, in parts of the whole.
#[derive(Clone, Copy)]
struct Part {
    floor: u32,
    remainder: u64,
}

// What a weight of 0 comes to.
const NOTHING: Part = Part {
    floor: 0,
    remainder: 0,
};

// A whole of 0 divides nothing: there each weight is 0, and so are its share and its remainder.
fn part_of(bill: u32, weight: u32, all: u64) -> Part
    ensures floor { weight ≤ all → result.floor ≡ bill * weight / all }
    ensures remainder { weight ≤ all → result.remainder ≡ bill * weight % all }
{
    let product = u64::from(bill) * u64::from(weight);
    let floor = product.checked_div(all).unwrap_or(0);
    Part {
        floor: u32::try_from(floor).unwrap_or(u32::MAX),
        remainder: product.checked_rem(all).unwrap_or(0),
    }
}

// What the weights come to, place by place.
#[derive(Drop)]
struct Parts {
    count: usize,
    parts: [Part; PLACES],
}

// Clauses see the parts that count.
impl Model for Parts {
    ghost use Rattle.std.specs.Prelude.{◌≤◌, List, take};
    ghost use Rattle.bill_shares.specs.declared.Part.{Part};

    ghost Value = { List Part };

    ghost view = { λ p. take p.count p.parts };

    ghost invariant = { λ p. p.count ≤ 128 };
}

impl Parts {
    // What the first `count` weights come to.
    fn of(bill: u32, weights: [u32; PLACES], count: usize) -> Parts
        ensures floors { map (λ p. p.floor) result ≡ floors bill (take count weights) }
        ensures remainders { map (λ p. p.remainder) result ≡ remainders bill (take count weights) }
    {
        let all = whole_of(weights, count);
        let count = count.min(PLACES);
        let mut parts = [NOTHING; PLACES];
        // Kept: by number. Of what is written through an iterator too little is known behind the loop, and `map` over the array would
        // divide for places that don't count.
        for i in 0..count {
            parts[i] = part_of(bill, weights[i], all);
        }
        Parts { count, parts }
    }

    fn as_slice(&self) -> &[Part]
        ensures same { result.now ≡ self.now }
        ensures few { length result.now ≤ 128 }
    {
        &self.parts[..self.count]
    }

    // All shares rounded down, together.
    #[tactic(auto, using(crate::proofs::ShareLaws::whole_of_map))]
    fn floors(&self) -> u64
        ensures { result ≡ whole (map (λ p. p.floor) self.now) }
    {
        self.as_slice()
            .iter()
            .map(|part| u64::from(part.floor))
            .sum()
    }

    // How many parts come before part `i`, whose remainder is `mine`: they have a larger one, or an equal one at a lower place.
    // Kept: a sum of ones: `filter` and `count` would give a usize, to be cast before it meets the pence, a u64.
    fn rank(&self, i: usize, mine: u64) -> u64
        ensures { i < length self.now → mine ≡ get_or (map (λ p. p.remainder) self.now) i 0 → result ≡ rank_of (map (λ p. p.remainder) self.now) i }
    {
        self.as_slice()
            .iter()
            .enumerate()
            .map(|(j, other)| u64::from((mine, j) < (other.remainder, i)))
            .sum()
    }

    // Each part's share of the bill, with zeros behind: a penny more where fewer parts than the remaining pence come before.
    fn handed_out(&self, bill: u32) -> [u32; PLACES]
        ensures { let floors = map (λ p. p.floor) self.now in
            let remainders = map (λ p. p.remainder) self.now in
            let share_at = λ (i : ℕ). get_or floors i 0 + cond (ltb (rank_of remainders i) (bill - whole floors)) 1 0 in
            result ≡ listed share_at 0 (length self.now) ++ replicate (128 - length self.now) 0 }
    {
        let pence = u64::from(bill).saturating_sub(self.floors());
        let mut shares = [0; PLACES];
        for (i, part) in self.as_slice().iter().enumerate() {
            let penny = self.rank(i, part.remainder) < pence;
            shares[i] = part.floor + u32::from(penny);
        }
        shares
    }
}

// The shares of the first `count` weights, with zeros behind. Where all of these weights are 0 the first `bill` places get a penny
// each, as the definition has it.
pub fn shares_of(bill: u32, weights: [u32; PLACES], count: usize) -> [u32; PLACES]
    ensures { result ≡ shares bill (take count weights) ++ replicate (128 - count) 0 }
{
    Parts::of(bill, weights, count).handed_out(bill)
}
