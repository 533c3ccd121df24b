// Instructions at the front of the bytes: their form, their test, and taking one.
ghost use Rattle.std.specs.Prelude.{◌≡◌, ◌&&◌, leb, ◌+◌};
ghost use Rattle.tasklist.specs.Decode.{form, register, spawn_ok, instruction_ok, kept, instruction};
ghost use Rattle.taking.specs.Fronts.{taken};

use tasklist::{Instruction, Refusal, Scope};

// Whether three numbers are registers.
#[tactic(auto, using(std::proofs::lemmas::Bool::Decides::nat_tests), unfolding(tasklist::specs::Decode::register))]
fn registers(a: u8, b: u8, c: u8) -> bool
    ensures { result ≡ (register a && register b && register c) }
{
    a < 4 && b < 4 && c < 4
}

// Whether a spawn or fan names a higher body and a footprint of the list.
#[tactic(auto, using(std::proofs::lemmas::Bool::Decides::nat_tests), unfolding(tasklist::specs::Decode::spawn_ok))]
fn spawns(at: Scope, body: u8, footprint: u8) -> bool
    ensures { result ≡ spawn_ok at body footprint }
{
    let body = usize::from(body);
    at.body < body && body < at.bodies && usize::from(footprint) < at.footprints
}

// Whether a fan names a higher body and a footprint of the list, and has 1 to 16 children.
#[tactic(auto, using(std::proofs::lemmas::Bool::Decides::nat_tests))]
fn fans(at: Scope, body: u8, footprint: u8, children: u8) -> bool
    ensures { result ≡ (spawn_ok at body footprint && leb 1 children && leb children 16) }
{
    spawns(at, body, footprint) && (1..=16).contains(&children)
}

// Whether a skip tests a register and ends within its body.
#[tactic(auto, using(std::proofs::lemmas::Bool::Decides::nat_tests), unfolding(tasklist::specs::Decode::register))]
fn skips(at: Scope, test: u8, length: u8) -> bool
    ensures { result ≡ (register test && leb (at.place + 1 + length) at.size) }
{
    test < 4 && at.place < at.size && usize::from(length) <= at.size - at.place - 1
}

// The instruction that a code and its three bytes say, where it passes its test in its place: by the code, form and test in
// one match.
#[tactic(auto, using(std::proofs::lemmas::Bool::Decides::nat_tests), unfolding(tasklist::specs::Decode::form, tasklist::specs::Decode::forms, tasklist::specs::Decode::instruction_ok, tasklist::specs::Decode::register))]
fn instruction_in(at: Scope, code: u8, a: u8, b: u8, c: u8) -> Option<Instruction>
    ensures { result ≡ kept (instruction_ok at) (form code a b c) }
{
    match code {
        0 => (a < 4).then_some(Instruction::Const {
            target: a,
            value: u16::from_le_bytes([b, c]),
        }),
        1 => registers(a, b, c).then_some(Instruction::Add {
            target: a,
            left: b,
            right: c,
        }),
        2 => registers(a, b, c).then_some(Instruction::Sub {
            target: a,
            left: b,
            right: c,
        }),
        3 => registers(a, b, c).then_some(Instruction::Less {
            target: a,
            left: b,
            right: c,
        }),
        4 => (a < 4 && b < 4 && c == 0).then_some(Instruction::Load {
            target: a,
            place: b,
        }),
        5 => (a < 4 && b < 4 && c == 0).then_some(Instruction::Store {
            place: a,
            source: b,
        }),
        6 => (skips(at, a, b) && c == 0).then_some(Instruction::Skip { test: a, length: b }),
        7 => (spawns(at, a, b) && c == 0).then_some(Instruction::Spawn {
            body: a,
            footprint: b,
        }),
        8 => (a < 4 && b == 0 && c == 0).then_some(Instruction::Wait { place: a }),
        9 => fans(at, a, b, c).then_some(Instruction::Fan {
            body: a,
            footprint: b,
            children: c,
        }),
        10 => (a < 4 && b < 4 && c == 0).then_some(Instruction::Sum {
            place: a,
            source: b,
        }),
        11 => registers(a, b, c).then_some(Instruction::Mul {
            target: a,
            left: b,
            right: c,
        }),
        12 => registers(a, b, c).then_some(Instruction::Div {
            target: a,
            left: b,
            right: c,
        }),
        _ => None,
    }
}

// An instruction of a body.
#[tactic(auto, using(crate::proofs::FieldLaws::fields))]
pub fn take_instruction(bytes: &[u8], scope: Scope) -> Result<(Instruction, &[u8]), Refusal>
    ensures { taken result ≡ instruction scope bytes.now }
{
    let [code, a, b, c, rest @ ..] = bytes else {
        return Err(Refusal::Incomplete);
    };
    let instruction = instruction_in(scope, *code, *a, *b, *c).ok_or(Refusal::Body)?;
    Ok((instruction, rest))
}
