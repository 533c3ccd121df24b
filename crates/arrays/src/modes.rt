// The table of modes: 128 rows of 64, a row for each task.
ghost use Rattle.std.specs.Prelude.{◌<◌, ◌≡◌, get_or, set};
ghost use Rattle.arrays.specs.Rows.{row, with};

// The row of `task`; all zero from 128 on.
#[tactic(auto, unfolding(crate::specs::Rows::row))]
pub fn row_of(modes: &[u8; 8192], task: usize) -> [u8; 64]
    ensures { task < 128 → result ≡ row task modes.now }
{
    let mut out = [0; 64];
    if task >= 128 {
        return out;
    }
    out.copy_from_slice(&modes[64 * task..64 * task + 64]);
    out
}

// Puts `row` as the row of `task`; leaves the table as it is from 128 on.
#[tactic(auto, using(crate::proofs::RowLaws::row_put))]
pub fn put_row(modes: &mut [u8; 8192], task: usize, row: [u8; 64])
    ensures { task < 128 → modes.new ≡ with task row modes.old }
{
    if task < 128 {
        modes[64 * task..64 * task + 64].copy_from_slice(&row);
    }
}

// The mode of `task` at `location`; 0 where there is no such task or location.
#[tactic(auto, using(crate::proofs::RowLaws::places))]
pub fn mode_at(modes: &[u8; 8192], task: usize, location: usize) -> u8
    ensures { result ≡ get_or (row task modes.now) location 0 }
{
    if task < 128 && location < 64 {
        modes[64 * task + location]
    } else {
        0
    }
}

// The mode of a row at `location`; 0 where there is none.
pub fn mode_in(row: &[u8; 64], location: usize) -> u8
    ensures { result ≡ get_or row.now location 0 }
{
    row.get(location).copied().unwrap_or(0)
}

// The row with another mode at `location`; the same row where there is no such location.
pub fn with_mode(mut row: [u8; 64], location: usize, mode: u8) -> [u8; 64]
    ensures { result ≡ set row location mode }
{
    if location < 64 {
        row[location] = mode;
    }
    row
}
