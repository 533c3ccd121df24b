// Check and the sequential run (document 01: hand run) for programs in C, which call them through include/preview.h and the crate
// `preview_c`. A refusal is 128 plus its number.
#![tactic(auto)]

ghost use Rattle.std.specs.Prelude.{◌≡◌, length};
ghost use Rattle.semantics.specs.Operations.{gives};
ghost use Rattle.runtime.specs.View.{model};
ghost use Rattle.preview.specs.Preview.{refusal_over_c, check_over_c, final_entries, hand_run_over_c, Answers};

use runtime::Run;
use tasklist::Short;

// A refusal's number, as C gets it.
fn refused(number: u8) -> u32
    ensures { result ≡ refusal_over_c number }
{
    128 + u32::from(number)
}

// Checks a job list: count(0), 1 to 128, or 128 plus the refusal's number.
pub fn preview_check(list: &[u8]) -> u32
    ensures { result ≡ check_over_c list.now }
{
    match reader::check(list) {
        Ok(count) => u32::from(count),
        Err(refusal) => refused(u8::from(refusal)),
    }
}

// Writes the run's memory, four bytes for each location, or gives 128 + 17 where the slice is too short.
fn delivered(run: Run, res: &mut [u8]) -> u32
    ensures { Answers (final_entries (length res.old) (gives (model run))) res.old res.new result }
{
    match library::write_numbers(library::entries(&run.memory, run.tables.locations), res) {
        Ok(()) => 0,
        Err(Short) => refused(17),
    }
}

// Runs a list by hand on a library, under a table of weights, and writes the final entries to the front of `res`: 0, or 128
// plus the refusal's number, and then nothing is written.
pub fn preview_hand_run(list: &[u8], library: &[u8], table: &[u8], res: &mut [u8]) -> u32
    ensures { Answers (hand_run_over_c list.now library.now table.now (length res.old)) res.old res.new result }
{
    let memory = library::read_numbers(library);
    let weights = library::read_table(table);
    // Bytes that are no table have no weights.
    match sequence::sequential(list, memory.as_slice(), weights.as_slice().as_flattened()) {
        Ok(run) => delivered(run, res),
        Err(unopened) => refused(u8::from(unopened)),
    }
}
