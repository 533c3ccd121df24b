// Instructions and lines of footprints in the text form.
use std::fmt;
use tasklist::{Instruction, Line};

#[derive(Clone, Copy)]
pub struct Form(pub Instruction);

impl fmt::Display for Form {
    fn fmt<W: fmt::Write>(&self, f: &mut fmt::Formatter<W>) -> fmt::Result {
        match self.0 {
            Instruction::Const { target, value } => write!(f, "const R{target} := {value}"),
            Instruction::Add {
                target,
                left,
                right,
            } => write!(f, "add R{target} := R{left} + R{right}"),
            Instruction::Sub {
                target,
                left,
                right,
            } => write!(f, "sub R{target} := R{left} - R{right}"),
            Instruction::Less {
                target,
                left,
                right,
            } => write!(f, "less R{target} := R{left} < R{right}"),
            Instruction::Load { target, place } => write!(f, "load R{target} := entry R{place}"),
            Instruction::Store { place, source } => write!(f, "store entry R{place} := R{source}"),
            Instruction::Skip { test, length } => write!(f, "skip {length} if R{test} = 0"),
            Instruction::Spawn { body, footprint } => {
                write!(f, "spawn sheet {body} with footprint {footprint}")
            }
            Instruction::Wait { place } => write!(f, "wait entry R{place}"),
            Instruction::Fan {
                body,
                footprint,
                children,
            } => write!(
                f,
                "fan sheet {body} with footprint {footprint}, {children} children"
            ),
            Instruction::Sum { place, source } => write!(f, "sum entry R{place} + R{source}"),
            Instruction::Mul {
                target,
                left,
                right,
            } => write!(f, "mul R{target} := R{left} * R{right} / 1000"),
            Instruction::Div {
                target,
                left,
                right,
            } => write!(f, "div R{target} := 1000 * R{left} / R{right}"),
        }
    }
}

#[derive(Clone, Copy)]
pub struct Access(pub Line);

impl fmt::Display for Access {
    fn fmt<W: fmt::Write>(&self, f: &mut fmt::Formatter<W>) -> fmt::Result {
        let value = self.0.value;
        // Kept: a match over the number of a kind, since the tables hold any byte there.
        match self.0.kind {
            0 => write!(f, "read entry {value}"),
            1 => write!(f, "write entry {value}"),
            2 => write!(f, "read entry R{value}"),
            3 => write!(f, "write entry R{value}"),
            4 => write!(f, "sum entry {value}"),
            _ => write!(f, "sum entry R{value}"),
        }
    }
}
