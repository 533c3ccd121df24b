// Replays a file of cases, and prints what the calls and what is asked of each run give (docs/cases.md). A file that can't be read,
// that ends within a case, that has a call of another kind or more than 65,536 bytes: `bad file`, behind the cases
// before.
#![tactic(auto)]

use host_files::{fill, open_named};
use std::env::Env;
use std::fs::Files;
use std::io::{self, Read, Write};

mod answers;
mod asks;
mod bill;
mod cases;
mod file;
mod lent;
mod moves;
mod pieces;
mod rounds;
mod searches;
mod text;

use cases::put_case;
use file::{Cases, kinds_known};
use pieces::Pieces;
use text::put_bad_file;

// How many bytes the longest file has.
const ROOM: usize = 65536;

// All cases of a file.
fn put_cases<W: Write>(out: &mut W, bytes: &[u8]) -> io::Result<()> {
    for (number, case) in Cases(bytes).enumerate() {
        match case {
            Some(case) if kinds_known(case.calls) => put_case(out, number, case)?,
            _ => return put_bad_file(out),
        }
    }
    Ok(())
}

// The cases of a file that is open.
fn put_file<W: Write, F: Read>(out: &mut W, file: &mut F) -> io::Result<()> {
    let mut bytes = [0u8; ROOM];
    let n = fill(file, &mut bytes);
    if 0 < fill(file, &mut [0]) {
        return put_bad_file(out);
    }
    put_cases(out, &bytes[..n])
}

// The cases of the file of a name.
fn put_named<W: Write, R: Files>(out: &mut W, rt: &R, name: &[u8]) -> io::Result<()> {
    match open_named(rt, name) {
        Some(mut file) => put_file(out, &mut file),
        None => put_bad_file(out),
    }
}

// The cases of the file that the first argument names.
fn run(rt: &HostRuntime) -> io::Result<()> {
    let mut out = Pieces::new(io::writer(rt));
    let mut name = [0u8; 4096];
    match rt.arg(1, &mut name) {
        Ok(n) => put_named(&mut out, rt, &name[..n])?,
        Err(_) => put_bad_file(&mut out)?,
    }
    out.flush()
}

// A write that fails is passed over: the next is tried all the same, and nothing is told.
fn main(rt: HostRuntime) {
    let _ = run(&rt);
}
