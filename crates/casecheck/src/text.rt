// What the lines of several modules are made of.
use std::fmt::Display;
use std::io::{self, Write};

// ` N N ..`
pub fn put_numbers<W: Write, T: Copy + Display + Drop>(
    out: &mut W,
    numbers: &[T],
) -> io::Result<()> {
    for number in numbers {
        write!(out, " {number}")?;
    }
    Ok(())
}

// The line `spoiled`, unless every place still holds what it held before.
pub fn put_spoiled<W: Write, T: Copy + PartialEq>(
    out: &mut W,
    places: &[T],
    before: T,
) -> io::Result<()> {
    if places.iter().all(|place| *place == before) {
        return Ok(());
    }
    writeln!(out, "spoiled")
}

// The line of a file that can't be read whole, or is too long.
pub fn put_bad_file<W: Write>(out: &mut W) -> io::Result<()> {
    writeln!(out, "bad file")
}
