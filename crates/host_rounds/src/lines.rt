// The lines of the table.
ghost use Rattle.std.specs.Prelude.{◌+◌, ◌≤◌, ◌≡◌, length};
ghost use Rattle.model_rounds.specs.Rounds.{most_rounds, most_workers};
ghost use Rattle.run_rounds.specs.Sizes.{most_calls};
ghost use Rattle.wording.specs.Promises.{PutAt};
ghost use Rattle.host_rounds.specs.Lines.{used, row, rows};
ghost use Rattle.host_rounds.specs.Promises.{rounds_at, calls_in};

use run_rounds::{MOST_WORKERS, RoundsTable};
use wording::{put_number, put_word};

// How much of the workers' time is used, in whole percent.
#[tactic(auto, using(crate::proofs::LineLaws::few_time, crate::proofs::LineLaws::no_time), unfolding(crate::specs::Lines::used))]
fn percent_used(calls: u32, workers: u32, rounds: u32) -> u32
    requires { (calls ≤ most_calls) × (workers ≤ most_workers) × (rounds ≤ most_rounds) }
    ensures { result ≡ used calls workers rounds }
{
    (100 * calls).checked_div(workers * rounds).unwrap_or(0)
}

// Puts a line of the table: workers, rounds, how much of the workers' time is used.
fn put_row(out: &mut [u8], at: usize, calls: u32, workers: u32, rounds: u32) -> usize
    requires room { at + 34 ≤ length out.old }
    requires few { (calls ≤ most_calls) × (workers ≤ most_workers) × (rounds ≤ most_rounds) }
    ensures put { PutAt (row workers rounds (used calls workers rounds)) out.old at out.new result }
    ensures most { result ≤ at + 34 }
{
    let second = put_number(out, at, workers, b' ');
    let third = put_number(out, second, rounds, b' ');
    let percent = percent_used(calls, workers, rounds);
    let last = put_number(out, third, percent, b'%');
    put_word(out, last, b"\n")
}

// Puts the lines of 1 to 16 workers.
pub fn put_rows(table: RoundsTable, out: &mut [u8], at: usize) -> usize
    requires { at + 544 ≤ length out.old }
    ensures put { PutAt (rows most_workers 1 (calls_in table) (rounds_at table)) out.old at out.new result }
    ensures most { result ≤ at + 544 }
{
    let calls = table.reports[0].calls;
    let mut stop = at;
    for (workers, report) in (1..=MOST_WORKERS).zip(&table.reports) {
        stop = put_row(out, stop, calls, workers, report.rounds);
    }
    stop
}
