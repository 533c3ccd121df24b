// The program rounds: how many rounds the publication of jobs.bin and library.bin takes with 1 to 16 workers (request 111). It only
// moves bytes; what it prints comes from the crates `host_rounds` and `wording`.
#![tactic(auto)]

use host_files::Folder;
use host_rounds::ROOM;
use runtime::OpenRefusal;
use std::fs::Files;
use std::io;
use tasklist::Refusal;

// The lines for the files of the folder that it runs in. A jobs.bin that can't be read is answered as one that is cut off, as by the
// coordinator.
fn run<R: Files + Print>(rt: &R) -> io::Result<()> {
    let folder = Folder::read(rt);
    let mut out = [0u8; ROOM];
    // Kept: no `?` on the bytes. Behind it is no refusal but the bytes that were written, as `rounds_lines` writes its own refusals.
    let n = match folder.jobs.bytes() {
        Some(jobs) => host_rounds::rounds_lines(jobs, folder.library_bytes(), &mut out),
        None => wording::open_line(Err(OpenRefusal::List(Refusal::Incomplete)), &mut out),
    };
    rt.write_all(&out[..n])
}

// Where the output fails, nothing is told.
fn main(rt: HostRuntime) {
    let _ = run(&rt);
}
