// Standard output, through the kit's `io`: all that is assumed of the C library is its `write`. std's handle would rest on
// two more of its functions, which tell the system's errors. A text that can't be written is passed over, and those after
// it are tried: a program prints what it can.
use std::fmt;
use std::fmt::{Display, Write};
use std::io::{Error, ErrorKind, Result};

#[derive(Clone, Copy)]
pub struct Console;

// A writer that keeps nothing back.
#[derive(Clone, Copy)]
struct Unbuffered;

impl fmt::Write for Unbuffered {
    fn write_str(&mut self, s: &str) -> fmt::Result {
        io::write_all(1, s.as_bytes());
        Ok(())
    }
}

fn written(done: fmt::Result) -> Result<()> {
    match done {
        Ok(()) => Ok(()),
        Err(_) => Err(Error::from(ErrorKind::WriteZero)),
    }
}

impl Print for Console {
    fn print<D: Display + Drop>(&self, value: D) -> Result<()> {
        let mut out = Unbuffered;
        written(out.write(value))
    }

    fn println<D: Display + Drop>(&self, value: D) -> Result<()> {
        let mut out = Unbuffered;
        written(out.writeln(value))
    }

    fn write_all(&self, bytes: &[u8]) -> Result<()> {
        io::write_all(1, bytes);
        Ok(())
    }
}
