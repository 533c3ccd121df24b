// A row of a table, written as a record of a mark, a count and its items.
ghost use Rattle.std.specs.Prelude.{ℕ, List, ◌≡◌, ◌+◌, ◌≤◌, length};
ghost use Rattle.std.proofs.lemmas.List.Edits.{sets};
ghost use Rattle.tasklist.specs.Encode.{instruction_fields, line_fields};
ghost use Rattle.writer.specs.Records.{record_bytes};

use tasklist::{Instruction, Line};

// Puts bytes at `at`.
pub fn put(out: &mut [u8], at: usize, bytes: &[u8])
    requires { at + length bytes.now ≤ length out.old }
    ensures { out.new ≡ sets out.old at bytes.now }
{
    out[at..at + bytes.len()].copy_from_slice(bytes);
}

// What a row of a table holds: a footprint its lines, a body its instructions.
pub trait Item: Copy {
    // the second byte of the mark of a row's record
    const MARK: u8;

    ghost MARK: { ℕ };

    ghost bytes: { Self → List ℕ };

    // Puts its bytes at `at` and gives the position behind them.
    fn put(self, out: &mut [u8], at: usize) -> usize
        requires { at + length (bytes self) ≤ length out.old }
        ensures end { result ≡ at + length (bytes self) }
        ensures places { out.new ≡ sets out.old at (bytes self) };
}

impl Item for Line {
    const MARK: u8 = 0x46;

    ghost MARK = { 0x46 };

    ghost bytes = { line_fields };

    #[tactic(auto, unfolding(tasklist::specs::Encode::line_fields))]
    fn put(self, out: &mut [u8], at: usize) -> usize {
        put(out, at, &[self.kind, self.value]);
        at + 2
    }
}

impl Item for Instruction {
    const MARK: u8 = 0x42;

    ghost MARK = { 0x42 };

    ghost bytes = { instruction_fields };

    fn put(self, out: &mut [u8], at: usize) -> usize {
        put(out, at, &fields(self));
        at + 4
    }
}

// An instruction's code and its three bytes.
#[tactic(auto, unfolding(tasklist::specs::Encode::instruction_fields))]
fn fields(instruction: Instruction) -> [u8; 4]
    ensures { result ≡ instruction_fields instruction }
{
    match instruction {
        Instruction::Const { target, value } => {
            let [low, high] = value.to_le_bytes();
            [0, target, low, high]
        }
        Instruction::Add {
            target,
            left,
            right,
        } => [1, target, left, right],
        Instruction::Sub {
            target,
            left,
            right,
        } => [2, target, left, right],
        Instruction::Less {
            target,
            left,
            right,
        } => [3, target, left, right],
        Instruction::Load { target, place } => [4, target, place, 0],
        Instruction::Store { place, source } => [5, place, source, 0],
        Instruction::Skip { test, length } => [6, test, length, 0],
        Instruction::Spawn { body, footprint } => [7, body, footprint, 0],
        Instruction::Wait { place } => [8, place, 0, 0],
        Instruction::Fan {
            body,
            footprint,
            children,
        } => [9, body, footprint, children],
        Instruction::Sum { place, source } => [10, place, source, 0],
        Instruction::Mul {
            target,
            left,
            right,
        } => [11, target, left, right],
        Instruction::Div {
            target,
            left,
            right,
        } => [12, target, left, right],
    }
}

// Puts the record of a row at `from` and gives the position behind it.
pub fn put_row<T: Item>(items: &[T], out: &mut [u8], from: usize) -> usize
    requires few { length items.now ≤ 32 }
    requires room { from + length (record_bytes T.MARK T.bytes items.now) ≤ length out.old }
    ensures end { result ≡ from + length (record_bytes T.MARK T.bytes items.now) }
    ensures places { out.new ≡ sets out.old from (record_bytes T.MARK T.bytes items.now) }
{
    let count = u8::try_from(items.len()).unwrap_or(0);
    put(out, from, &[0x4A, T::MARK, count]);
    let mut at = from + 3;
    for item in items {
        at = item.put(out, at);
    }
    at
}
