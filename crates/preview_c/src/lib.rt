// The functions of the crate `preview` as a static library: what include/preview.h declares. Each calls its namesake.
#![tactic(auto)]

ghost use Rattle.std.specs.Prelude.{◌≡◌, length};
ghost use Rattle.preview.specs.Preview.{check_over_c, hand_run_over_c, Answers};

// Checks a job list: count(0), 1 to 128, or 128 plus the refusal's number.
#[unsafe(no_mangle)]
pub extern "C" fn preview_check(list: &[u8]) -> u32
    ensures { result ≡ check_over_c list.now }
{
    preview::preview_check(list)
}

// Runs a list by hand on a library, under a table of weights, and writes the final entries to the front of `res`: 0, or 128
// plus the refusal's number, and then nothing is written.
#[unsafe(no_mangle)]
pub extern "C" fn preview_hand_run(list: &[u8], library: &[u8], table: &[u8], res: &mut [u8]) -> u32
    ensures { Answers (hand_run_over_c list.now library.now table.now (length res.old)) res.old res.new result }
{
    preview::preview_hand_run(list, library, table, res)
}
