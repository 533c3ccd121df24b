// What queue and the writer put into a lent slice, in lines. Every place of it is filled before, so that a place that
// ought to keep what stood in it shows.
ghost use Rattle.std.specs.Prelude.{◌≤◌};

use crate::asks::{locations, put_refused};
use crate::text::{put_numbers, put_spoiled};
use runtime::Run;
use std::io::{self, Write};
use tasklist::Short;

// What a lent place of a queue, and one of a list, holds before.
const PLACE: u16 = 0xAAAA;

const BYTE: u8 = 0xAA;

// How many bytes the longest list has.
const LIST_BYTES: usize = 4805;

// How many of N lent places a call takes; none where it is refused.
pub fn places_taken<T, E, F, const N: usize>(mut places: [T; N], call: F) -> usize
where
    T: Copy,
    E: Drop,
    F: FnOnce(&mut [T]) -> Result<usize, E>,
    requires { F.IsAlwaysCallable call }
    ensures { result ≤ N }
{
    call(&mut places).unwrap_or(0).min(N)
}

// The queue of a location, into so many places: `LABEL E P P ..` or `LABEL E refused K`.
fn put_queue<W: Write>(
    out: &mut W,
    label: &str,
    run: &Run,
    location: u8,
    room: usize,
) -> io::Result<()> {
    let location = u32::from(location);
    let mut places = [PLACE; 128];
    let got = inspect::location_queue(*run, location, &mut places[..room.min(128)]);
    match got {
        Ok(n) => {
            let (queue, rest) = places.split_at(n.min(128));
            write!(out, "{label} {location}")?;
            put_numbers(out, queue)?;
            writeln!(out)?;
            put_spoiled(out, rest, PLACE)
        }
        Err(refusal) => {
            put_refused(out, label, location, refusal)?;
            put_spoiled(out, &places, PLACE)
        }
    }
}

// The queues of all locations, and of the first number that is none.
pub fn put_queues<W: Write>(out: &mut W, run: &Run) -> io::Result<()> {
    for location in 0..=locations(run) {
        put_queue(out, "queue", run, location, 128)?;
    }
    Ok(())
}

// How many places the queue of a location takes.
fn queue_size(run: &Run, location: u8) -> usize
    ensures { result ≤ 128 }
{
    places_taken([PLACE; 128], |places| {
        inspect::location_queue(*run, u32::from(location), places)
    })
}

// The queues of all locations, each into a slice that is one place short; nothing where it takes none.
pub fn put_short_queues<W: Write>(out: &mut W, run: &Run) -> io::Result<()> {
    for location in 0..locations(run) {
        if let Some(room) = queue_size(run, location).checked_sub(1) {
            put_queue(out, "short", run, location, room)?;
        }
    }
    Ok(())
}

// The writer, into so many places: `LABEL N HEX` or `LABEL refused 17`.
fn put_list<W: Write>(out: &mut W, label: &str, run: &Run, room: usize) -> io::Result<()> {
    let mut bytes = [BYTE; LIST_BYTES];
    let got = inspect::list_bytes(*run, &mut bytes[..room.min(LIST_BYTES)]);
    match got {
        Ok(n) => {
            let (list, rest) = bytes.split_at(n.min(LIST_BYTES));
            write!(out, "{label} {n} ")?;
            for byte in list {
                write!(out, "{byte:02x}")?;
            }
            writeln!(out)?;
            put_spoiled(out, rest, BYTE)
        }
        Err(Short) => {
            writeln!(out, "{label} refused 17")?;
            put_spoiled(out, &bytes, BYTE)
        }
    }
}

// The writer, into 4,805 places, and into a slice that is one place short.
pub fn put_lists<W: Write>(out: &mut W, run: &Run) -> io::Result<()> {
    put_list(out, "write", run, LIST_BYTES)?;
    let size = places_taken([BYTE; LIST_BYTES], |bytes| inspect::list_bytes(*run, bytes));
    match size.checked_sub(1) {
        Some(room) => put_list(out, "short", run, room),
        None => Ok(()),
    }
}
