// The children that one step makes: their rows of modes and their places in the order.
ghost use Rattle.std.specs.Prelude.{ℕ, ◌+◌, ◌-◌, ◌≤◌, ◌<◌, ◌≡◌, List, Some};
ghost use Rattle.semantics.specs.Footprint.{granted};
ghost use Rattle.arrays.specs.Places.{unended};
ghost use Rattle.grants.specs.Grants.{child_grant};
ghost use Rattle.tables.specs.Children.{Fit, RowsOf, insert_all, with_rows};

use crate::Block;
use arrays::{Order, put_row};
use grants::Spawner;

// The modes of the child ahead of child `i`, where there is one and its footprint is granted.
fn row_ahead(spawner: &Spawner, i: u8) -> Option<[u8; 64]>
    ensures { 0 < i → (ms : List ℕ) → child_grant spawner.now.registers spawner.now.modes spawner.now.lines.now (i - 1) ≡ granted ms → result ≡ Some ms }
{
    let ahead = i.checked_sub(1)?;
    spawner.granted(ahead).ok()
}

// Puts the rows of all children and their numbers at place `at`, child 0 foremost: the last child first, whose modes are
// `last`.
pub fn put_children(
    spawner: &Spawner,
    last: [u8; 64],
    modes: &mut [u8; 8192],
    order: &mut Order,
    at: usize,
    block: Block,
)
    requires { Fit order.old.left block.first block.apart block.children }
    ensures rows_put { (rows : ℕ → List ℕ) → RowsOf spawner.now.registers spawner.now.modes spawner.now.lines.now last block.children rows → modes.new ≡ with_rows block.first block.apart rows block.children modes.old }
    ensures places_put { at ≤ order.old.left → (order.new.left ≡ order.old.left + block.children) × (unended order.new ≡ insert_all at block.first block.apart block.children (unended order.old)) }
{
    let mut row = last;
    for i in (0..block.children).rev() {
        let number = block.number(i);
        put_row(modes, number, row);
        // Kept: `as`, which is proved to lose nothing: the numbers of children that fit are below 128.
        order.insert(at, number as u8);
        // Kept: a name for the row, since a call's array is not assigned to a variable that is there.
        let ahead = row_ahead(spawner, i).unwrap_or(row);
        row = ahead;
    }
}
