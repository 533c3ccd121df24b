// Where a list is refused, in words.
use finding::refused_end;
use std::io;
use tasklist::Refusal;

// What is wrong with a field, and which byte it ends with: the last of the shortest part.
fn print_field(rt: &impl Print, bytes: &[u8], wrong: &str) -> io::Result<()> {
    match refused_end(bytes).checked_sub(1) {
        Some(last) => println!(rt; "{wrong}; the field ends with byte {last}, counted from 0"),
        None => println!(rt; "{wrong}"),
    }
}

// A refusal in words, and at which byte.
pub fn print_refused(rt: &impl Print, bytes: &[u8], refusal: Refusal) -> io::Result<()> {
    let number = u8::from(refusal);
    print!(rt; "refused {number}: ")?;
    match refusal {
        Refusal::Incomplete => {
            let end = bytes.len();
            println!(rt; "the file ends within a field, at byte {end}, counted from 0")
        }
        Refusal::Tag => print_field(rt, bytes, "a wrong mark"),
        Refusal::Head => print_field(rt, bytes, "a number of the head is out of range"),
        Refusal::Footprint => print_field(rt, bytes, "a bad count or line of a footprint"),
        Refusal::Body => print_field(rt, bytes, "a bad count or instruction of a sheet"),
        Refusal::Leftover => {
            let first = refused_end(bytes);
            println!(rt; "bytes are left over, the first is byte {first}, counted from 0")
        }
        Refusal::Tasks => println!(rt; "the whole list can make more than 128 jobs"),
    }
}
