// The output, gathered into pieces on the stack: a full one is put out where a byte more comes, the rest at the end.
ghost use Rattle.std.specs.Prelude.{ℕ, ◌≡◌, ◌-◌, ◌<◌, ◌≤◌, ◌++◌, List, Option, None, Ok, IsOk, length, take, min};
ghost use Rattle.std.specs.Io.{WritesAtMost};
ghost use Rattle.std.specs.Io.KnownBytes.{Keeps, Appends, WriteAppends, append_known};
ghost use Rattle.casecheck.specs.Pieces.{room_behind};
ghost use Rattle.casecheck.specs.declared.pieces.TheConstants.{PIECE};

use std::io::{self, Printer, Write};

// How many bytes a piece has.
const PIECE: usize = 4096;

// Where pieces go.
pub trait Outlet {
    // The bytes that it took, where they are known.
    ghost taken: { Self → Option (List ℕ) } = { λ _. None };

    // It can't fail.
    fn put(&mut self, piece: &[u8])
        ensures { Appends (taken self.old) (taken self.new) piece.now };
}

// A write that fails is passed over, and nothing is told.
impl<P: Print> Outlet for Printer<'_, P> {
    fn put(&mut self, piece: &[u8]) {
        let _ = self.write_all(piece);
    }
}

// A writer that never fails: what is gathered for the next piece, and where it goes.
#[derive(Drop)]
pub struct Pieces<O> {
    to: O,
    bytes: [u8; PIECE],
    filled: usize,
    ghost within: { filled ≤ PIECE },
}

impl<O: Outlet> Pieces<O> {
    pub fn new(to: O) -> Pieces<O>
        ensures to { result.to ≡ to }
        ensures none { result.filled ≡ 0 }
    {
        Pieces {
            to,
            bytes: [0; PIECE],
            filled: 0,
        }
    }

    // Puts out what is gathered.
    fn put_out(&mut self)
        ensures none { self.new.filled ≡ 0 }
        ensures out { Appends (O.taken self.old.to) (O.taken self.new.to) (take self.old.filled self.old.bytes) }
    {
        let filled = self.filled;
        self.filled = 0;
        self.to.put(&self.bytes[..filled]);
    }

    // Puts bytes behind those that are gathered, as many as there is room for: how many that are.
    fn gather(&mut self, buf: &[u8]) -> usize
        ensures count { result ≡ min (length buf.now) (PIECE - self.old.filled) }
        ensures bytes { take self.new.filled self.new.bytes ≡ take self.old.filled self.old.bytes ++ take result buf.now }
        ensures to { self.new.to ≡ self.old.to }
    {
        let n = buf.len().min(PIECE - self.filled);
        self.bytes[self.filled..self.filled + n].copy_from_slice(&buf[..n]);
        self.filled += n;
        n
    }
}

impl<O: Outlet> Write for Pieces<O> {
    ghost contents = { λ p. append_known (O.taken p.to) (take p.filled p.bytes) };

    // Gathers as many bytes as the piece has room for.
    fn write(&mut self, buf: &[u8]) -> io::Result<usize>
        ensures bound { WritesAtMost result buf.now }
        ensures bytes { WriteAppends (append_known (O.taken self.old.to) (take self.old.filled self.old.bytes)) (append_known (O.taken self.new.to) (take self.new.filled self.new.bytes)) result buf.now }
        ensures count { result ≡ Ok (min (length buf.now) (room_behind self.old.filled)) }
        ensures early { self.old.filled < PIECE → self.new.to ≡ self.old.to }
    {
        if self.filled == PIECE {
            self.put_out();
        }
        Ok(self.gather(buf))
    }

    fn flush(&mut self) -> io::Result<()>
        ensures bytes { Keeps (append_known (O.taken self.old.to) (take self.old.filled self.old.bytes)) (append_known (O.taken self.new.to) (take self.new.filled self.new.bytes)) }
        ensures none { self.new.filled ≡ 0 }
        ensures ok { IsOk result }
    {
        self.put_out();
        Ok(())
    }
}
