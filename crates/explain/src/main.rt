// Prints job lists in words, in the text form that the assembler reads back (docs/text-form.md). A refused list is told
// with its refusal and byte. What it finds in a list stands in `finding`; below stands
// the list layer alone.
#![tactic(auto)]

use host_files::{LIST_ROOM, fill_to_end, open_named};
use std::env::{Env, FillError};
use std::fs::Files;
use std::io::{self, Read};

mod list;
mod refused;
mod trying;
mod words;

use list::print_list;
use refused::print_refused;
use trying::Trying;

const USAGE: &str = "usage: explain FILE..
Prints each job list in the text form that tools/assemble reads, with the jobs that it can make as comments;
for a refused list, the refusal and the byte.";

// Prints what a file's bytes hold.
fn explain(rt: &impl Print, bytes: &[u8]) -> io::Result<()> {
    match reader::read(bytes) {
        Ok(tables) => print_list(rt, &tables),
        Err(refusal) => print_refused(rt, bytes, refusal),
    }
}

// Explains a file that is open. The buffer holds one byte more than the longest list, so that bytes left over show.
fn explain_open<F: Read>(rt: &impl Print, file: &mut F) -> io::Result<()> {
    let mut bytes = [0u8; LIST_ROOM];
    match fill_to_end(file, &mut bytes) {
        Some(n) => explain(rt, &bytes[..n]),
        None => println!(rt; "this file can't be read"),
    }
}

// Explains the file of a name.
fn explain_file<R: Files>(rt: &R, out: &impl Print, name: &[u8]) -> io::Result<()> {
    print!(out; "# ")?;
    out.write_all(name)?;
    println!(out)?;
    match open_named(rt, name) {
        Some(mut file) => explain_open(out, &mut file),
        None => println!(out; "this file can't be opened"),
    }
}

// Explains the files that the arguments name. `--help` is no name.
fn run<R: Env + Files>(rt: &R, out: &impl Print) -> io::Result<()> {
    // Kept: a count in the place of `env::args`, which makes Strings on the heap and fails where one argument is no text.
    for i in 1..usize::MAX {
        let mut name = [0u8; 4096];
        match rt.arg(i, &mut name) {
            Ok(n) if &name[..n] == b"--help".as_slice() => out.println(USAGE)?,
            Ok(n) => explain_file(rt, out, &name[..n])?,
            Err(FillError::TooLong) => println!(out; "this file can't be opened")?,
            Err(FillError::NotPresent) if i == 1 => return out.println(USAGE),
            Err(FillError::NotPresent) => return Ok(()),
        }
    }
    Ok(())
}

// A write that fails is passed over: the next is tried all the same, and nothing is told.
fn main(rt: HostRuntime) {
    let _ = run(&rt, &Trying(&rt));
}
