// The numbers of the refusals, and blank tables.
ghost use Rattle.std.specs.Prelude.{◌≡◌};
ghost use Rattle.tasklist.specs.Tables.{blank_tables};
ghost use Rattle.tasklist.specs.Answers.{refusal_number};

use crate::{Instruction, Line, Refusal, Tables};

// Document 01's number of a refusal.
impl From<Refusal> for u8 {
    ghost from_gives = { λ refusal r. r ≡ refusal_number refusal };

    fn from(refusal: Refusal) -> u8 {
        match refusal {
            Refusal::Incomplete => 1,
            Refusal::Tag => 2,
            Refusal::Head => 3,
            Refusal::Footprint => 4,
            Refusal::Body => 5,
            Refusal::Leftover => 6,
            Refusal::Tasks => 7,
        }
    }
}

// Blank tables: no location, no footprint, no body.
#[tactic(auto, unfolding(crate::specs::Tables::blank_tables))]
pub fn blank() -> Tables
    ensures { result ≡ blank_tables }
{
    let instruction = Instruction::Const {
        target: 0,
        value: 0,
    };
    Tables {
        locations: 0,
        footprints: 0,
        bodies: 0,
        widths: [0u8; 32],
        lines: [Line { kind: 0, value: 0 }; 256],
        sizes: [0u8; 32],
        cells: [instruction; 1024],
        counts: [1u8; 32],
    }
}
