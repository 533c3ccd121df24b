// The writer: the bytes of the list that tables stand for, from its own head to its last instruction. Stands above `listing`,
// which reads the tables.
#![tactic(auto)]

ghost use Rattle.std.specs.Prelude.{◌≡◌, length};
ghost use Rattle.tasklist.specs.Encode.{encode};
ghost use Rattle.tasklist.specs.Tables.{list_of};
ghost use Rattle.tasklist.specs.Answers.{written, write_answer, write_places};

use crate::rows::{put, put_row};
use listing::{body_count, body_instructions, footprint_count, footprint_lines};
use tasklist::{Short, Tables};

mod rows;

// How many bytes the list takes, at most 4,805.
pub fn encoded_length(tables: &Tables) -> usize
    ensures { result ≡ length (encode (list_of tables.now)) }
{
    let mut length = 5;
    for f in 0..footprint_count(tables) {
        length += 3 + 2 * footprint_lines(tables, f).len();
    }
    for s in 0..body_count(tables) {
        length += 3 + 4 * body_instructions(tables, s).len();
    }
    length
}

// Writes the list's bytes into `out`: how many, or that it is too short and nothing was written.
pub fn write(tables: &Tables, out: &mut [u8]) -> Result<usize, Short>
    ensures { (written result ≡ write_answer (encode (list_of tables.now)) out.old) × (out.new ≡ write_places (encode (list_of tables.now)) out.old) }
{
    let n = encoded_length(tables);
    if out.len() < n {
        return Err(Short);
    }
    let footprints = footprint_count(tables);
    let bodies = body_count(tables);
    let head = [
        0x4A,
        0x48,
        tables.locations,
        tables.footprints.min(32),
        tables.bodies.min(32),
    ];
    put(out, 0, &head);
    let mut at = 5;
    for f in 0..footprints {
        at = put_row(footprint_lines(tables, f), out, at);
    }
    for s in 0..bodies {
        at = put_row(body_instructions(tables, s), out, at);
    }
    Ok(n)
}
