// An accepted list in the text form: head, footprints, sheets; then its jobs, as comments.
ghost use Rattle.std.specs.Prelude.{◌<◌};

use crate::words::{Access, Form};
use finding::{job_of, last_of};
use listing::{body_count, body_instructions, footprint_count, footprint_lines};
use std::io;
use tasklist::Tables;

// A footprint, its lines behind commas.
fn print_footprint(rt: &impl Print, tables: &Tables, f: usize) -> io::Result<()> {
    print!(rt; "footprint {f}:")?;
    let [first, others @ ..] = footprint_lines(tables, f) else {
        return println!(rt; " none");
    };
    print!(rt; " {}", Access(*first))?;
    for line in others {
        print!(rt; ", {}", Access(*line))?;
    }
    println!(rt)
}

// A body, an instruction on each line behind its place.
fn print_body(rt: &impl Print, tables: &Tables, s: usize) -> io::Result<()> {
    println!(rt; "sheet {s}:")?;
    for (i, instruction) in body_instructions(tables, s).iter().enumerate() {
        println!(rt; "    {i}: {}", Form(*instruction))?;
    }
    Ok(())
}

// The task of a number: its block, and what makes it.
fn print_job(rt: &impl Print, tables: &Tables, n: usize) -> io::Result<()>
    requires { n < 128 }
{
    let job = job_of(tables, n);
    print!(rt; "# ")?;
    for _ in 0..job.depth {
        print!(rt; "  ")?;
    }
    let last = last_of(tables, n, job.body);
    print!(rt; "job {n} (block {n} to {last}): sheet {}", job.body)?;
    if job.depth == 0 {
        return println!(rt; ", writes every entry");
    }
    print!(rt;
        ", footprint {}, made by job {} at place {}",
        job.footprint, job.spawner, job.place
    )?;
    if 0 < job.children {
        print!(rt; ", child {}", job.child)?;
    }
    println!(rt)
}

// The whole list.
pub fn print_list(rt: &impl Print, tables: &Tables) -> io::Result<()> {
    println!(rt; "entries {}", tables.locations)?;
    for f in 0..footprint_count(tables) {
        print_footprint(rt, tables, f)?;
    }
    for s in 0..body_count(tables) {
        print_body(rt, tables, s)?;
    }
    let count = tables.counts[0];
    println!(rt; "# jobs that can be made: {count}")?;
    for n in 0..usize::from(count).min(128) {
        print_job(rt, tables, n)?;
    }
    Ok(())
}
