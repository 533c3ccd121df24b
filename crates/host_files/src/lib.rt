// The files that the programs for a host read: jobs.bin and library.bin, each from its start up to its end or the buffer's.
#![tactic(auto)]

ghost use Rattle.std.specs.Prelude.{◌≡◌, ◌≤◌, length, take, IfOk, IfErr, IfSome, OnSome, option_copied, option_map};
ghost use Rattle.std.specs.Io.KnownBytes.{Consumes};
ghost use Rattle.std.specs.Str.{IsUtf8};
ghost use Rattle.host_files.specs.Files.{size_of, Within, Front, Taken, ReadsTo, ReadsOn};

use std::fs::{File, Files};
use std::io::Read;

// One byte more than the longest list and than the longest library, so that a longer file shows.
pub const LIST_ROOM: usize = 4806;

pub const LIBRARY_ROOM: usize = 257;

// A read failed behind so many bytes.
#[derive(Clone, Copy)]
struct CutOff {
    bytes: usize,
}

// Reads into a buffer until it is full, the file ends or a read fails: how many bytes that are.
fn read_up_to<F: Read>(file: &mut F, buf: &mut [u8]) -> Result<usize, CutOff>
    ensures whole { IfOk result (λ n. ReadsTo (F.remaining file.old) (F.remaining file.new) n buf.new) }
    ensures part { IfErr result (λ cut. Taken (F.remaining file.old) (F.remaining file.new) cut.bytes buf.new) }
{
    let mut done = 0;
    // Kept: it goes on by what was read, not by one. A `for` over a bound that no file reaches would hide when it ends.
    while done < buf.len() {
        match file.read(&mut buf[done..]) {
            Err(_) => return Err(CutOff { bytes: done }),
            Ok(0) => return Ok(done),
            Ok(n) => done += n,
        }
    }
    Ok(done)
}

// Reads a file that is open, up to its end or the buffer's: so many bytes from its start, unless a read fails.
fn read_open<F: Read>(file: &mut F, buf: &mut [u8]) -> Option<usize>
    ensures within { Within result buf.new }
    ensures front { Front (F.remaining file.old) (F.remaining file.new) result buf.new }
{
    read_up_to(file, buf).ok()
}

// The file of a name, open to be read. A name that is no text names no file.
// Kept: the name is bytes and no &str, as a program's arguments and the callers of `read_file` have it.
pub fn open_named<R: Files>(rt: &R, name: &[u8]) -> Option<R::File>
    ensures { OnSome result (IsUtf8 name.now) }
{
    let path = str::from_utf8(name).ok()?;
    File::open(rt, path).ok()
}

// Reads the file of a name from its start, up to its end or the buffer's: how many bytes that are. None where it can't be
// opened, or a read fails.
pub fn read_file<R: Files>(rt: &R, name: &[u8], buf: &mut [u8]) -> Option<usize>
    ensures { Within result buf.new }
{
    let mut file = open_named(rt, name)?;
    read_open(&mut file, buf)
}

// Reads into a buffer until it is full, the file ends or a read fails, and returns how many bytes that are.
pub fn fill<F: Read>(file: &mut F, buf: &mut [u8]) -> usize
    ensures most { result ≤ length buf.new }
    ensures bytes { Consumes (F.remaining file.old) (F.remaining file.new) (take result buf.new) }
{
    read_up_to(file, buf).unwrap_or_else(|cut| cut.bytes)
}

// Fills a buffer, and reads on by one byte: how many bytes it was filled with. A short count is the file's end only if reading
// on gives no error: None where it gives one.
pub fn fill_to_end<F: Read>(file: &mut F, buf: &mut [u8]) -> Option<usize>
    ensures within { Within result buf.new }
    ensures bytes { IfSome result (λ n. ReadsOn (F.remaining file.old) (F.remaining file.new) n buf.new) }
{
    let n = fill(file, buf);
    file.read(&mut [0]).ok()?;
    Some(n)
}

// What was read of a file: its bytes, or None where it can't be read.
// Kept: a buffer of its full size and how much of it was read. There is no heap, and the programs' promises name both fields.
#[derive(Drop)]
pub struct Contents<const ROOM: usize> {
    pub buffer: [u8; ROOM],
    pub read: Option<usize>,
    ghost within: { size_of read ≤ ROOM },
}

impl<const ROOM: usize> Contents<ROOM> {
    // Reads the file of a name.
    fn of_file<R: Files>(rt: &R, name: &[u8]) -> Contents<ROOM> {
        let mut buffer = [0u8; ROOM];
        let read = read_file(rt, name, &mut buffer);
        Contents { buffer, read }
    }

    pub fn bytes(&self) -> Option<&[u8]>
        ensures { option_copied result ≡ option_map (λ n. take n self.now.buffer) self.now.read }
    {
        Some(&self.buffer[..self.read?])
    }
}

// The two files of the folder that a program runs in.
#[derive(Drop)]
pub struct Folder {
    pub jobs: Contents<LIST_ROOM>,
    pub library: Contents<LIBRARY_ROOM>,
}

impl Folder {
    // Reads jobs.bin and library.bin. No contract can say what a file gives; of each as much is read as there is room for, which the type
    // of its contents keeps too.
    pub fn read<R: Files>(rt: &R) -> Folder
        ensures jobs { size_of result.jobs.read ≤ LIST_ROOM }
        ensures library { size_of result.library.read ≤ LIBRARY_ROOM }
    {
        Folder {
            jobs: Contents::of_file(rt, b"jobs.bin"),
            library: Contents::of_file(rt, b"library.bin"),
        }
    }

    // The bytes of library.bin. A file that can't be read counts as empty.
    pub fn library_bytes(&self) -> &[u8]
        ensures { result.now ≡ take (size_of self.now.library.read) self.now.library.buffer }
    {
        self.library.bytes().unwrap_or(&[])
    }
}
