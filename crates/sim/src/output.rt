// The buffer of the output. Nothing is written out when it is dropped: std's BufWriter would do that, and takes memory that may not be there.
ghost use Rattle.std.specs.Prelude.{◌≤◌};
ghost use Rattle.sim.specs.declared.output.TheConstants.{CAPACITY};

use crate::files::FileError;
use std::fmt::Display;
use std::io;
use std::io::Write;

const CAPACITY: usize = 65536;

// From here on the buffer is nearly full: every line has fewer than 8,192 bytes.
const NEARLY_FULL: usize = 57344;

#[derive(Drop)]
pub(crate) struct Output<'a, P> {
    rt: &'a P,
    bytes: [u8; CAPACITY],
    held: usize,
    ghost within: { held ≤ CAPACITY },
}

impl<'a, P: Print> Output<'a, P> {
    pub(crate) fn new(rt: &'a P) -> Self {
        Output {
            rt,
            bytes: [0; CAPACITY],
            held: 0,
        }
    }

    // Puts a line, and writes the buffer out where it is nearly full.
    pub(crate) fn put_line(&mut self, text: impl Display + Drop) -> io::Result<()> {
        self.writeln(text)?;
        if NEARLY_FULL <= self.held {
            self.flush()?;
        }
        Ok(())
    }

    // Puts the line before the output of a file of several. The name of a file may be any bytes.
    pub(crate) fn put_header(&mut self, name: &[u8]) -> io::Result<()> {
        self.write_all(b"== ")?;
        self.write_all(name)?;
        self.put_line("")
    }

    // Puts the line of a file in error.
    pub(crate) fn put_named_error(&mut self, name: &[u8], error: FileError) -> io::Result<()> {
        self.write_all(b"error ")?;
        self.write_all(name)?;
        self.put_line(format_args!(": {error}"))
    }
}

impl<P: Print> Write for Output<'_, P> {
    fn write(&mut self, text: &[u8]) -> io::Result<usize> {
        if self.held == CAPACITY {
            self.flush()?;
        }
        let n = text.len().min(CAPACITY - self.held);
        self.bytes[self.held..self.held + n].copy_from_slice(&text[..n]);
        self.held += n;
        Ok(n)
    }

    fn flush(&mut self) -> io::Result<()> {
        self.rt.write_all(&self.bytes[..self.held])?;
        self.held = 0;
        Ok(())
    }
}
