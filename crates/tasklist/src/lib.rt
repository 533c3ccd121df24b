// Job lists: document 01's binary format, the tables that a read list is kept in, and the task counts. The reader stands above, in
// `taking` and `reader`, what is asked of the tables in `listing`, the writer in `writer`; the runtime uses promises only.
#![tactic(auto)]

// One instruction of a task body (document 01: sheet), one case for each of the thirteen forms.
#[derive(Clone, Copy)]
pub enum Instruction {
    // 0 const: register `target` := `value`.
    Const {
        target: u8,
        value: u16,
    },
    // 1 add: `target` := `left` + `right`, modulo 2^32.
    Add {
        target: u8,
        left: u8,
        right: u8,
    },
    // 2 sub: `target` := `left` - `right`, modulo 2^32.
    Sub {
        target: u8,
        left: u8,
        right: u8,
    },
    // 3 less: `target` := 1 if `left` < `right`, else 0.
    Less {
        target: u8,
        left: u8,
        right: u8,
    },
    // 4 load: `target` := the location whose number is in register `place`.
    Load {
        target: u8,
        place: u8,
    },
    // 5 store: the location whose number is in register `place` := register `source`.
    Store {
        place: u8,
        source: u8,
    },
    // 6 skip: if register `test` is 0, pass over the next `length` instructions.
    Skip {
        test: u8,
        length: u8,
    },
    // 7 spawn: a task that runs `body` under `footprint`.
    Spawn {
        body: u8,
        footprint: u8,
    },
    // 8 wait: for the location whose number is in register `place`.
    Wait {
        place: u8,
    },
    // 9 fan (request 104): `children` tasks that run `body` under `footprint`, each with its own number in register 0.
    Fan {
        body: u8,
        footprint: u8,
        children: u8,
    },
    // 10 sum (request 107): the location whose number is in register `place` := itself + register `source`, modulo 2^32.
    Sum {
        place: u8,
        source: u8,
    },
    // 11 mul (request 108): `target` := `left` * `right` / 1000, to the nearest whole number, halves upward.
    Mul {
        target: u8,
        left: u8,
        right: u8,
    },
    // 12 div (request 108): `target` := 1000 * `left` / `right`, to the nearest whole number, halves upward.
    Div {
        target: u8,
        left: u8,
        right: u8,
    },
}

// One line of a footprint: kind 0 reads and 1 writes location `value`; 2 reads and 3 writes the location whose
// number is in register `value`; request 107: 4 sums location `value`, 5 the one named by register `value`.
// Kept: the kind is a number, since tables may hold any byte there, and a narrower type would ask more of callers.
#[derive(Clone, Copy)]
pub struct Line {
    pub kind: u8,
    pub value: u8,
}

// What an instruction is tested against: how many footprints and bodies the list has, the number and size of its
// own body, and its place there.
#[derive(Clone, Copy)]
pub struct Scope {
    pub footprints: usize,
    pub bodies: usize,
    pub body: usize,
    pub size: usize,
    pub place: usize,
}

// A job list in tables. Footprint f has `widths[f]` lines, from `lines[8 * f]` on; body s has `sizes[s]`
// instructions, from `cells[32 * s]` on; `counts[s]` is document 01's count(s), 129 standing for all above 128.
// Kept: arrays with counts beside them, since a list is kept in fixed memory, as large as the longest list.
#[derive(Clone, Copy)]
pub struct Tables {
    pub locations: u8,
    pub footprints: u8,
    pub bodies: u8,
    pub widths: [u8; 32],
    pub lines: [Line; 256],
    pub sizes: [u8; 32],
    pub cells: [Instruction; 1024],
    pub counts: [u8; 32],
}

// Why a list is refused: document 01's numbers 1 to 7, in this order.
#[derive(Clone, Copy, Debug, PartialEq, Eq)]
pub enum Refusal {
    // 1: the bytes end within a field.
    Incomplete,
    // 2: a wrong mark.
    Tag,
    // 3: a head number out of range.
    Head,
    // 4: a footprint's count or line.
    Footprint,
    // 5: a body's count or instruction.
    Body,
    // 6: bytes left over.
    Leftover,
    // 7: more than 128 tasks.
    Tasks,
}

// 17: the lent slice is too short; nothing was written.
#[derive(Clone, Copy, Debug, PartialEq, Eq)]
pub struct Short;

// The head's numbers.
#[derive(Clone, Copy)]
pub struct Header {
    pub locations: u8,
    pub footprints: u8,
    pub bodies: u8,
}

mod answers;
mod counts;

pub use answers::blank;
pub use counts::{added, task_counts};
