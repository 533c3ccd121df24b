// Checks job lists: one line for each file named, its task count or `refused N`; `refused 1` too where it can't be read.
#![tactic(auto)]

use host_files::{LIST_ROOM, fill_to_end, open_named};
use std::env::{Env, FillError};
use std::fs::Files;
use std::io;
use tasklist::Refusal;

// Checks the file of a name. The buffer holds one byte more than the longest list, so that bytes left over show.
fn check_file<R: Files>(rt: &R, name: &[u8]) -> Result<u8, Refusal> {
    let mut file = open_named(rt, name).ok_or(Refusal::Incomplete)?;
    let mut bytes = [0u8; LIST_ROOM];
    let n = fill_to_end(&mut file, &mut bytes).ok_or(Refusal::Incomplete)?;
    reader::check(&bytes[..n])
}

fn print_answer(rt: &impl Print, answer: Result<u8, Refusal>) -> io::Result<()> {
    match answer {
        Ok(n) => println!(rt; "{n}"),
        Err(refusal) => println!(rt; "refused {}", u8::from(refusal)),
    }
}

// Checks the files that the arguments name.
fn run<R: Env + Files + Print>(rt: &R) -> io::Result<()> {
    // Kept: a count in the place of `env::args`, which makes Strings on the heap and fails where one argument is no text.
    for i in 1..usize::MAX {
        let mut name = [0u8; 4096];
        let answer = match rt.arg(i, &mut name) {
            Ok(n) => check_file(rt, &name[..n]),
            Err(FillError::TooLong) => Err(Refusal::Incomplete),
            Err(FillError::NotPresent) if i == 1 => return println!(rt; "usage: listcheck FILE.."),
            Err(FillError::NotPresent) => return Ok(()),
        };
        let _ = print_answer(rt, answer);
    }
    Ok(())
}

// A write that fails is passed over: the next is tried all the same, and nothing is told.
fn main(rt: HostRuntime) {
    let _ = run(&rt);
}
