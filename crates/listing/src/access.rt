// What stands where in the tables, whatever they hold.
ghost use Rattle.std.specs.Prelude.{[], ◌*◌, ◌≤◌, ◌≡◌, length, take, get_or};
ghost use Rattle.tasklist.specs.TaskList.{body_of, footprint_of, instruction_of};
ghost use Rattle.tasklist.specs.Accepted.{blank_line};
ghost use Rattle.tasklist.specs.Tables.{rows, list_of};

use tasklist::{Instruction, Line, Tables};

// How many footprints the list has.
#[tactic(auto, using(tasklist::proofs::PlaceLaws::footprint_count_is))]
pub fn footprint_count(tables: &Tables) -> usize
    ensures footprints { result ≡ length (list_of tables.now).footprints }
    ensures few { result ≤ 32 }
{
    usize::from(tables.footprints).min(32)
}

// How many bodies the list has.
#[tactic(auto, using(tasklist::proofs::PlaceLaws::body_count_is))]
pub fn body_count(tables: &Tables) -> usize
    ensures bodies { result ≡ length (list_of tables.now).bodies }
    ensures few { result ≤ 32 }
{
    usize::from(tables.bodies).min(32)
}

// The items of row `s`, where the first `count` of 32 rows stand for something, each with as many items as its size says but at
// most `width`; none where there is no such row.
// Kept: a row by its number in one flat table, since `chunks_exact(width).nth(s)` divides by the width, and asks once more whether
// there is a row where there always is.
#[tactic(auto, using(crate::proofs::RowLaws::row_items))]
fn row_of<'a, T>(count: u8, sizes: &[u8; 32], items: &'a [T], width: usize, s: usize) -> &'a [T]
    requires narrow { width ≤ 32 }
    requires room { width * 32 ≤ length items.now }
    ensures items { result.now ≡ get_or (rows width (take count sizes.now) items.now) s [] }
    ensures few { length result.now ≤ width }
{
    let used = &sizes[..usize::from(count).min(32)];
    let Some(size) = used.get(s) else {
        return &[];
    };
    let first = width * s;
    &items[first..first + usize::from(*size).min(width)]
}

// The lines of footprint `f`, none where there is no such footprint.
#[tactic(auto, unfolding(tasklist::specs::TaskList::footprint_of, tasklist::specs::Tables::list_of))]
pub fn footprint_lines(tables: &Tables, f: usize) -> &[Line]
    ensures lines { result.now ≡ footprint_of (list_of tables.now) f }
    ensures few { length result.now ≤ 8 }
{
    row_of(tables.footprints, &tables.widths, &tables.lines, 8, f)
}

// The instructions of body `s`, none where there is no such body.
#[tactic(auto, unfolding(tasklist::specs::TaskList::body_of, tasklist::specs::Tables::list_of))]
pub fn body_instructions(tables: &Tables, s: usize) -> &[Instruction]
    ensures instructions { result.now ≡ body_of (list_of tables.now) s }
    ensures few { length result.now ≤ 32 }
{
    row_of(tables.bodies, &tables.sizes, &tables.cells, 32, s)
}

// How many lines footprint `f` has, 0 where there is none.
pub fn footprint_size(tables: &Tables, f: usize) -> usize
    ensures { result ≡ length (footprint_of (list_of tables.now) f) }
{
    footprint_lines(tables, f).len()
}

// How many instructions body `s` has, 0 where there is none.
pub fn body_size(tables: &Tables, s: usize) -> usize
    ensures { result ≡ length (body_of (list_of tables.now) s) }
{
    body_instructions(tables, s).len()
}

// Line `j` of footprint `f`; where there is none, the blank one (kind 0, value 0).
pub fn line_at(tables: &Tables, f: usize, j: usize) -> Line
    ensures { result ≡ get_or (footprint_of (list_of tables.now) f) j blank_line }
{
    let lines = footprint_lines(tables, f);
    lines.get(j).copied().unwrap_or(Line { kind: 0, value: 0 })
}

// The instruction at place `i` of body `s`; where there is none, the blank one (const R0 0).
#[tactic(auto, unfolding(tasklist::specs::TaskList::instruction_of))]
pub fn instruction_at(tables: &Tables, s: usize, i: usize) -> Instruction
    ensures { result ≡ instruction_of (list_of tables.now) s i }
{
    let instructions = body_instructions(tables, s);
    instructions.get(i).copied().unwrap_or(Instruction::Const {
        target: 0,
        value: 0,
    })
}

// The count of body `s`, 1 where there is none; 129 stands for all above 128.
pub fn task_count(tables: &Tables, s: usize) -> u8
    ensures { result ≡ get_or tables.now.counts s 1 }
{
    tables.counts.get(s).copied().unwrap_or(1)
}
