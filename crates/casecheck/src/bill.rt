// The wards of a run and the bills shared among them (request 114), in lines. Every place of the lent slice is filled before, so
// that a place that ought to keep what stood in it shows. In front of each line stands a prefix: none, or `hand ` for the
// sequential run's.
ghost use Rattle.std.specs.Prelude.{◌≡◌};
ghost use Rattle.bill_wards.specs.Answers.{named};

use crate::lent::places_taken;
use crate::text::{put_numbers, put_spoiled};
use bill_shares::PLACES;
use bill_wards::BillRefusal;
use runtime::Run;
use std::io::{self, Write};

// What a lent place holds before.
const CANARY: u32 = 0xAAAAAAAA;

// The bills, in pence.
const BILLS: [u32; 5] = [0, 1, 7, 100, u32::MAX];

// The bill that is also shared into too short a slice.
const SHORT_BILL: u32 = 100;

// How many places an answer names; none where the bill isn't shared.
fn places_named(got: Result<usize, BillRefusal>) -> usize
    ensures { result ≡ named got }
{
    got.unwrap_or(0)
}

// The shares of a bill, into so many places: ` N P P ..` or ` refused K`, to the end of its line, and the line `spoiled` where
// a place that the answer doesn't name was written.
fn put_bill<W: Write>(out: &mut W, run: &Run, bill: u32, room: usize) -> io::Result<()> {
    let mut places = [CANARY; PLACES];
    let got = bill_wards::shares(*run, bill, &mut places[..room.min(PLACES)]);
    match got {
        Ok(n) => {
            let (named, rest) = places.split_at(places_named(got).min(PLACES));
            write!(out, " {n}")?;
            put_numbers(out, named)?;
            writeln!(out)?;
            put_spoiled(out, rest, CANARY)
        }
        Err(_) => {
            writeln!(out, " refused {}", bill_wards::billed_number(got))?;
            put_spoiled(out, &places, CANARY)
        }
    }
}

// `PREFIXshort shares refused 17`, into a slice that is one place short; nothing where the bill isn't shared.
fn put_short_bill<W: Write>(out: &mut W, prefix: &str, run: &Run) -> io::Result<()> {
    let size = places_taken([CANARY; PLACES], |places| {
        bill_wards::shares(*run, SHORT_BILL, places)
    });
    let Some(room) = size.checked_sub(1) else {
        return Ok(());
    };
    write!(out, "{prefix}short shares")?;
    put_bill(out, run, SHORT_BILL, room)
}

// `PREFIXwards N J W J W ..`
fn put_wards<W: Write>(out: &mut W, prefix: &str, run: &Run) -> io::Result<()> {
    let wards = bill_wards::wards_of(*run);
    write!(out, "{prefix}wards {}", wards.count)?;
    for (number, weight) in wards.numbers.iter().zip(&wards.weights).take(wards.count) {
        write!(out, " {number} {weight}")?;
    }
    writeln!(out)
}

// The wards of a run, and the bills shared in it.
pub fn put_shares<W: Write>(out: &mut W, prefix: &str, run: &Run) -> io::Result<()> {
    put_wards(out, prefix, run)?;
    for bill in BILLS {
        write!(out, "{prefix}shares {bill}")?;
        put_bill(out, run, bill, PLACES)?;
    }
    put_short_bill(out, prefix, run)
}
