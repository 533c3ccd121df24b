// The reader: head, footprints, bodies, then what is left over and the task count.
ghost use Rattle.std.specs.Prelude.{◌≡◌};
ghost use Rattle.tasklist.specs.Decode.{head, empty_list, decode};
ghost use Rattle.tasklist.specs.Answers.{checked, check_answer, Tabled, ReadAs};
ghost use Rattle.taking.specs.Fronts.{taken};

use crate::rows::read_rows;
use taking::{take_number, take_tag};
use tasklist::{Header, Refusal, Tables, blank, task_counts};

// The head: its mark and three numbers.
#[tactic(auto, unfolding(tasklist::specs::Decode::head, tasklist::specs::Decode::head_numbers))]
fn take_head(bytes: &[u8]) -> Result<(Header, &[u8]), Refusal>
    ensures { taken result ≡ head bytes.now }
{
    let rest = take_tag(bytes, 0x48)?;
    let (locations, rest) = take_number(rest, 1, 64, Refusal::Head)?;
    let (footprints, rest) = take_number(rest, 0, 32, Refusal::Head)?;
    let (bodies, rest) = take_number(rest, 1, 32, Refusal::Head)?;
    let head = Header {
        locations,
        footprints,
        bodies,
    };
    Ok((head, rest))
}

// A file of no bytes: one location, no footprints and one empty body.
fn read_empty() -> Tables
    ensures { Tabled empty_list result }
{
    Tables {
        locations: 1,
        bodies: 1,
        ..blank()
    }
}

// Reads a job list: its tables, or why it is refused.
#[tactic(auto, using(crate::proofs::ReadingLaws::empty_read, std::proofs::lemmas::Bool::Decides::nat_tests))]
pub fn read(bytes: &[u8]) -> Result<Tables, Refusal>
    ensures { ReadAs (decode bytes.now) result }
{
    if bytes.is_empty() {
        return Ok(read_empty());
    }
    let (head, rest) = take_head(bytes)?;
    let mut tables = Tables {
        locations: head.locations,
        footprints: head.footprints,
        bodies: head.bodies,
        ..blank()
    };
    let rest = read_rows(
        rest,
        head,
        head.footprints,
        &mut tables.widths,
        &mut tables.lines,
    )?;
    let rest = read_rows(
        rest,
        head,
        head.bodies,
        &mut tables.sizes,
        &mut tables.cells,
    )?;
    if !rest.is_empty() {
        return Err(Refusal::Leftover);
    }
    tables.counts = task_counts(usize::from(head.bodies), &tables.sizes, &tables.cells);
    if 128 < tables.counts[0] {
        return Err(Refusal::Tasks);
    }
    Ok(tables)
}

// Whether a list is accepted: count(0), or the refusal.
pub fn check(bytes: &[u8]) -> Result<u8, Refusal>
    ensures { checked result ≡ check_answer (decode bytes.now) }
{
    let tables = read(bytes)?;
    Ok(tables.counts[0])
}
