// The coordinator: opens a run of jobs.bin and library.bin, makes the calls of standard input and prints a line for each.
// It only moves bytes; what it prints comes from the crates `wording` and `transcript`.
#![tactic(auto)]

ghost use Rattle.std.specs.Prelude.{◌+◌, ◌*◌, ◌/◌, ◌≤◌, ◌≡◌, length, take};
ghost use Rattle.host_files.specs.Files.{size_of};
ghost use Rattle.transcript.specs.Promises.{FedAs};
ghost use Rattle.coordinator.specs.Files.{OpenedFrom};

use host_files::Folder;
use runtime::{OpenRefusal, Run};
use std::fs::Files;
use std::io::Read;
use tasklist::Refusal;
use transcript::Fed;

// Between two pieces of the input: the run after the calls so far, and the byte that waits for the next piece.
#[derive(Clone, Copy)]
struct Session {
    run: Run,
    pending: Option<u8>,
}

// What open answers, by the two files: a jobs.bin that can't be read is refused with 1.
#[tactic(auto, unfolding(runtime::specs::Asked::open_number))]
fn opened(folder: &Folder) -> Result<Run, OpenRefusal>
    ensures { OpenedFrom folder.now.jobs.read folder.now.jobs.buffer (take (size_of folder.now.library.read) folder.now.library.buffer) result }
{
    let jobs = folder.jobs.bytes().ok_or(Refusal::Incomplete)?;
    wording::open_files(jobs, folder.library_bytes())
}

// Feeds a piece that is not too long, where there is room for all its lines: the whole of it is used.
fn fed_whole(run: Run, pending: Option<u8>, piece: &[u8], out: &mut [u8]) -> Fed
    requires { (length piece.now ≤ 511) × (4 * (length piece.now / 2 + 1) ≤ length out.old) }
    ensures { FedAs run pending piece.now out.old out.new result × (result.used ≡ length piece.now) }
{
    transcript::feed(run, pending, piece, out)
}

// Writes text. A write that fails is passed over: the next is tried all the same, and nothing is told.
fn put(rt: &impl Print, text: &[u8]) {
    let _ = rt.write_all(text);
}

// Makes the calls of a piece of the input and prints their lines.
fn take_turn(rt: &impl Print, session: Session, piece: &[u8]) -> Session
    requires { length piece.now ≤ 511 }
{
    let mut out = [0u8; 1024];
    let fed = fed_whole(session.run, session.pending, piece, &mut out);
    put(rt, &out[..fed.wrote]);
    Session {
        run: fed.run,
        pending: fed.pending,
    }
}

// What is printed at the input's end.
fn finish(rt: &impl Print, session: Session) {
    let mut out = [0u8; 1024];
    let half = wording::half_line(session.pending, &mut out);
    put(rt, &out[..half]);
    let rest = wording::closing_lines(session.run, &mut out);
    put(rt, &out[..rest]);
}

// The whole input, piece by piece; a read that fails counts as its end. A proved loop has to end, and nothing says that the
// input does: it goes over more pieces than any input has.
fn serve<I: Read>(rt: &impl Print, input: &mut I, run: Run) {
    let mut session = Session { run, pending: None };
    for _ in 0..u64::MAX {
        let mut piece = [0u8; 511];
        let n = input.read(&mut piece).unwrap_or(0);
        if n == 0 {
            break;
        }
        session = take_turn(rt, session, &piece[..n]);
    }
    finish(rt, session);
}

// The line of a failed open.
fn refuse(rt: &impl Print, refusal: OpenRefusal) {
    let mut out = [0u8; 16];
    let n = wording::open_line(Err(refusal), &mut out);
    put(rt, &out[..n]);
}

// The files of the folder that it runs in, and the calls of an input.
fn coordinate<R: Files + Print, I: Read>(rt: &R, input: &mut I) {
    match opened(&Folder::read(rt)) {
        Ok(run) => serve(rt, input, run),
        Err(refusal) => refuse(rt, refusal),
    }
}

fn main(rt: HostRuntime) {
    let mut input = rt.stdin();
    coordinate(&rt, &mut input);
}
