// The rounds that a list takes with so many workers (request 111), in lines.
use std::io::{self, Write};

// `rounds W R C S` or `rounds W refused K`, for so many workers.
fn put_workers<W: Write>(out: &mut W, workers: u32, list: &[u8], memory: &[u32]) -> io::Result<()> {
    let weights = fresh::todays_weights();
    write!(out, "rounds {workers}")?;
    match run_rounds::publication_rounds(workers, list, memory, &weights) {
        Ok(got) => writeln!(out, " {} {} {}", got.rounds, got.calls, got.span),
        Err(refusal) => writeln!(out, " refused {}", u8::from(refusal)),
    }
}

// The lines for these numbers of workers.
pub fn put_rounds<W: Write>(
    out: &mut W,
    workers: &[u32],
    list: &[u8],
    memory: &[u32],
) -> io::Result<()> {
    for count in workers {
        put_workers(out, *count, list, memory)?;
    }
    Ok(())
}
