// Output that goes on where a write fails: it is passed over, and no error is told.
ghost use Rattle.std.specs.Prelude.{IsOk};

use std::fmt::Display;
use std::io;

// What prints, tried at each write.
#[derive(Drop)]
pub struct Trying<'a, P>(pub &'a P);

impl<P: Print> Print for Trying<'_, P> {
    fn print<D: Display + Drop>(&self, value: D) -> io::Result<()>
        ensures { IsOk result }
    {
        let _ = self.0.print(value);
        Ok(())
    }

    fn println<D: Display + Drop>(&self, value: D) -> io::Result<()>
        ensures { IsOk result }
    {
        let _ = self.0.println(value);
        Ok(())
    }

    fn write_all(&self, bytes: &[u8]) -> io::Result<()>
        ensures { IsOk result }
    {
        let _ = self.0.write_all(bytes);
        Ok(())
    }
}
