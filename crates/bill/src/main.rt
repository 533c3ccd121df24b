// The program bill: the server's bill, shared among the wards of the publication of jobs.bin and library.bin (request 114). It only
// moves bytes; what it prints comes from the crate `host_bill`.
#![tactic(auto)]

use host_bill::ROOM;
use host_files::{Folder, fill, open_named};
use lent::PIECE;
use runtime::{OpenRefusal, Run};
use std::env::{Env, FillError};
use std::fs::Files;
use std::io::{self, Read};
use tasklist::Refusal;

fn usage(rt: &impl Print) -> io::Result<()> {
    println!(rt; "usage: bill PENCE [CALLS]")
}

// Makes the calls of an open file on a run, in pieces that the lender takes at once; they have an even number of bytes, so that no
// call lies in two. A read that fails counts as the file's end. No file has so many pieces that the loop ends before the file does.
fn all_calls<F: Read>(file: &mut F, mut run: Run) -> Run {
    for _ in 0..u64::MAX {
        let mut piece = [0u8; PIECE];
        let n = fill(file, &mut piece);
        run = lent::lend(run, &piece[..n]).run;
        if n < PIECE {
            break;
        }
    }
    run
}

// The run after the calls of the file of a name; one that can't be opened counts as empty.
fn after_calls<R: Files>(rt: &R, name: &[u8], run: Run) -> Run {
    match open_named(rt, name) {
        Some(mut file) => all_calls(&mut file, run),
        None => run,
    }
}

// The run that is billed: after the calls where there is a file of them, else the hand run's. A jobs.bin that can't be read is
// answered as one that is cut off, as by the coordinator.
fn billed_run<R: Files>(rt: &R, folder: &Folder, calls: Option<&[u8]>) -> Result<Run, OpenRefusal> {
    let jobs = folder.jobs.bytes().ok_or(Refusal::Incomplete)?;
    let numbers = folder.library_bytes();
    match calls {
        Some(name) => Ok(after_calls(rt, name, wording::open_files(jobs, numbers)?)),
        None => host_bill::hand_run_files(jobs, numbers),
    }
}

// Shares a bill, after the calls of the file that is named, if one is.
fn share<R: Files + Print>(rt: &R, bill: u32, calls: Option<&[u8]>) -> io::Result<()> {
    let folder = Folder::read(rt);
    let mut out = [0u8; ROOM];
    let n = host_bill::bill_lines(billed_run(rt, &folder, calls), bill, &mut out);
    rt.write_all(&out[..n])
}

// Whether there is an argument of this number.
fn has_arg<R: Env>(rt: &R, i: usize) -> bool {
    !matches!(rt.arg(i, &mut []), Err(FillError::NotPresent))
}

// The bill that the first argument tells; none where there is no such argument, or a third one.
fn bill_asked<R: Env>(rt: &R) -> Option<u32> {
    let mut word = [0u8; 4096];
    let n = rt.arg(1, &mut word).ok()?;
    if has_arg(rt, 3) {
        return None;
    }
    host_bill::pence_in(&word[..n])
}

// Shares the bill that is asked for, after the calls of the file that the second argument names, if there is one. A name that is too
// long names no file, as the empty one.
fn run<R: Env + Files + Print>(rt: &R) -> io::Result<()> {
    let Some(bill) = bill_asked(rt) else {
        return usage(rt);
    };
    let mut name = [0u8; 4096];
    match rt.arg(2, &mut name) {
        Ok(n) => share(rt, bill, Some(&name[..n])),
        Err(FillError::TooLong) => share(rt, bill, Some(&[])),
        Err(FillError::NotPresent) => share(rt, bill, None),
    }
}

// Where the output fails, nothing is told.
fn main(rt: HostRuntime) {
    let _ = run(&rt);
}
