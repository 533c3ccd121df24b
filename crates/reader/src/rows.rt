// The rows of the tables: records of a mark, a count and as many items, read one behind the other.
ghost use Rattle.std.specs.Prelude.{ℕ, List, [], ◌≡◌, ◌*◌, ◌≤◌, take, length};
ghost use Rattle.tasklist.specs.declared.Header.{Header};
ghost use Rattle.tasklist.specs.declared.Refusal.{Refusal};
ghost use Rattle.tasklist.specs.declared.Refusal.TheVariants.{Footprint, Body};
ghost use Rattle.tasklist.specs.Fields.{Taken, many, row};
ghost use Rattle.tasklist.specs.Decode.{line, instruction, scope};
ghost use Rattle.tasklist.specs.Tables.{rows};
ghost use Rattle.tasklist.specs.Answers.{refusal_number};
ghost use Rattle.taking.specs.Fronts.{taken, taken_into};

use taking::{take_counted, take_instruction, take_line};
use tasklist::{Header, Instruction, Line, Refusal, Scope};

// Where an item stands: the list's head, the number of its row, how many items that has, and the item's place there.
#[derive(Clone, Copy)]
pub struct Position {
    pub head: Header,
    pub row: usize,
    pub size: usize,
    pub place: usize,
}

// What a row of a table holds: a footprint its lines, a body its instructions.
pub trait Item: Copy {
    // the second byte of the mark of a row's record
    const MARK: u8;

    // how many items a row has at most
    const WIDTH: u8;

    // why a row of more is refused
    const REFUSAL: Refusal;

    ghost MARK: { ℕ };

    ghost WIDTH: { ℕ };

    ghost REFUSAL: { Refusal };

    ghost item: { Header → ℕ → ℕ → ℕ → List ℕ → Taken Self };

    // Takes the item that stands there.
    fn take(bytes: &[u8], at: Position) -> Result<(Self, &[u8]), Refusal>
        ensures { taken result ≡ item at.head at.row at.size at.place bytes.now };
}

impl Item for Line {
    const MARK: u8 = 0x46;

    const WIDTH: u8 = 8;

    const REFUSAL: Refusal = Refusal::Footprint;

    ghost MARK = { 0x46 };

    ghost WIDTH = { 8 };

    ghost REFUSAL = { Footprint };

    ghost item = { λ head _ _ _. line head.locations };

    fn take(bytes: &[u8], at: Position) -> Result<(Line, &[u8]), Refusal> {
        take_line(bytes, at.head.locations)
    }
}

impl Item for Instruction {
    const MARK: u8 = 0x42;

    const WIDTH: u8 = 32;

    const REFUSAL: Refusal = Refusal::Body;

    ghost MARK = { 0x42 };

    ghost WIDTH = { 32 };

    ghost REFUSAL = { Body };

    ghost item = { λ head s n i. instruction (scope head s n i) };

    fn take(bytes: &[u8], at: Position) -> Result<(Instruction, &[u8]), Refusal> {
        let scope = Scope {
            footprints: usize::from(at.head.footprints),
            bodies: usize::from(at.head.bodies),
            body: at.row,
            size: at.size,
            place: at.place,
        };
        take_instruction(bytes, scope)
    }
}

// Reads a row of as many items as there is room for, and gives the bytes behind them.
fn read_row<'a, T: Item>(
    bytes: &'a [u8],
    head: Header,
    row: usize,
    items: &mut [T],
) -> Result<&'a [u8], Refusal>
    ensures { taken_into items.new result ≡ many (T.item head row (length items.old)) 0 (length items.old) [] bytes.now }
{
    let size = items.len();
    let mut rest = bytes;
    for (place, held) in items.iter_mut().enumerate() {
        let at = Position {
            head,
            row,
            size,
            place,
        };
        let (item, behind) = T::take(rest, at)?;
        *held = item;
        rest = behind;
    }
    Ok(rest)
}

// Reads the first `used` rows of a table, each a record of a mark, a count and its items, and gives the bytes behind them.
// Kept: a loop by index, since a row is found by its number in one flat table, and of rows that `chunks_mut` lends nothing is
// known behind the loop.
pub fn read_rows<'a, T: Item>(
    bytes: &'a [u8],
    head: Header,
    used: u8,
    sizes: &mut [u8; 32],
    items: &mut [T],
) -> Result<&'a [u8], Refusal>
    requires few { used ≤ 32 }
    requires room { T.WIDTH * 32 ≤ length items.old }
    ensures { taken_into (rows T.WIDTH (take used sizes.new) items.new) result ≡ many (λ s. row T.MARK T.WIDTH (refusal_number T.REFUSAL) (T.item head s)) 0 used [] bytes.now }
{
    let width = usize::from(T::WIDTH);
    let mut rest = bytes;
    for s in 0..usize::from(used) {
        let (count, behind) = take_counted(rest, T::MARK, T::WIDTH, T::REFUSAL)?;
        let first = width * s;
        let row = &mut items[first..first + usize::from(count)];
        rest = read_row(behind, head, s, row)?;
        sizes[s] = count;
    }
    Ok(rest)
}
