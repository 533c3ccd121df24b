// The whole table: calls and span, the lines, how many workers are enough.
ghost use Rattle.std.specs.Prelude.{◌+◌, ◌≤◌, ◌≡◌, length};
ghost use Rattle.library.specs.Library.{memory_of};
ghost use Rattle.semantics.specs.Run.{fixed_weights};
ghost use Rattle.semantics.specs.Operations.{open_asked};
ghost use Rattle.model_rounds.specs.Rounds.{most_workers};
ghost use Rattle.run_rounds.specs.Reports.{TabledAs};
ghost use Rattle.wording.specs.Promises.{Wrote, PutAt, given};
ghost use Rattle.host_rounds.specs.Lines.{enough_from, enough_line, table_lines, room, rounds_text};
ghost use Rattle.host_rounds.specs.Promises.{rounds_at, calls_in};

use crate::ROOM;
use crate::lines::put_rows;
use run_rounds::{MOST_WORKERS, RoundsTable};
use runtime::OpenRefusal;
use wording::{open_line, put_number, put_word};

// The least number of workers whose rounds equal the span; none where more than 16 would help.
fn enough(table: RoundsTable) -> Option<u32>
    ensures { result ≡ enough_from most_workers 1 table.span (rounds_at table) }
{
    (1..=MOST_WORKERS)
        .zip(&table.reports)
        .find(|(_, report)| report.rounds == table.span)
        .map(|(workers, _)| workers)
}

// Puts the last line.
fn put_enough(out: &mut [u8], at: usize, workers: Option<u32>) -> usize
    requires { at + 18 ≤ length out.old }
    ensures put { PutAt (enough_line workers) out.old at out.new result }
    ensures most { result ≤ at + 18 }
{
    let behind = put_word(out, at, b"enough ");
    match workers {
        Some(count) => put_number(out, behind, count, b'\n'),
        None => put_word(out, behind, b"none\n"),
    }
}

// Puts all lines at the front.
fn put_table(table: RoundsTable, out: &mut [u8]) -> usize
    requires { room ≤ length out.old }
    ensures put { PutAt (table_lines (calls_in table) table.span (rounds_at table)) out.old 0 out.new result }
    ensures most { result ≤ room }
{
    let first = put_word(out, 0, b"calls ");
    let second = put_number(out, first, table.reports[0].calls, b'\n');
    let third = put_word(out, second, b"span ");
    let fourth = put_number(out, third, table.span, b'\n');
    let fifth = put_rows(table, out, fourth);
    put_enough(out, fifth, enough(table))
}

// The reports of a job list with the numbers of a library, four bytes for each, under today's weights.
// Kept: two lines as in `wording::open_files`, which says why.
fn files_table(jobs: &[u8], numbers: &[u8]) -> Result<RoundsTable, OpenRefusal>
    ensures { TabledAs jobs.now (memory_of numbers.now) fixed_weights (open_asked jobs.now (memory_of numbers.now) fixed_weights) result }
{
    let memory = library::read_numbers(numbers);
    run_rounds::rounds_table(jobs, memory.as_slice(), &fresh::todays_weights())
}

// All that is printed for the bytes of the two files, at the front of `out`. Nothing where `out` has fewer than
// ROOM places.
pub fn rounds_lines(jobs: &[u8], numbers: &[u8], out: &mut [u8]) -> usize
    ensures { Wrote (given room out.old (rounds_text jobs.now numbers.now)) out.old out.new result }
{
    if out.len() < ROOM {
        return 0;
    }
    match files_table(jobs, numbers) {
        Ok(table) => put_table(table, out),
        Err(refusal) => open_line(Err(refusal), out),
    }
}
