// The input of a script, read in chunks and run line by line.
ghost use Rattle.std.specs.Prelude.{◌≤◌};
ghost use Rattle.sim.specs.declared.input.TheConstants.{ROOM};

use crate::files::FileError;
use crate::output::Output;
use crate::parse::LONGEST;
use crate::run::Run;
use std::io;
use std::io::Read;
use std::rt::Files;

// The name of an input, and whether it is one of several, which have a line before their output.
#[derive(Clone, Copy)]
pub(crate) struct Title<'a> {
    pub(crate) name: &'a [u8],
    pub(crate) several: bool,
}

// The bytes of a line that are held: a carriage return and one byte more than a line may have, so that what does not fit changes nothing.
const ROOM: usize = LONGEST + 2;

// The bytes of a line so far.
// No Vec: it takes memory that may not be there, and a line that is read may not fail so.
#[derive(Clone, Copy)]
struct Line {
    bytes: [u8; ROOM],
    held: usize,
    ghost within: { held ≤ ROOM },
}

impl Line {
    fn new() -> Line {
        Line {
            bytes: [0; ROOM],
            held: 0,
        }
    }

    fn push(&mut self, byte: u8) {
        if self.held < self.bytes.len() {
            self.bytes[self.held] = byte;
            self.held += 1;
        }
    }

    fn clear(&mut self) {
        self.held = 0;
    }

    fn is_empty(&self) -> bool {
        self.held == 0
    }

    // The line without the carriage return at its end.
    fn text(&self) -> &[u8] {
        let text = &self.bytes[..self.held];
        text.strip_suffix(b"\r").unwrap_or(text)
    }
}

// Runs the lines that end in what was read, and holds the rest.
fn feed<R: Print + Files + Alloc>(
    rt: &R,
    run: &mut Run,
    line: &mut Line,
    bytes: &[u8],
    out: &mut Output<'_, R>,
) -> io::Result<()> {
    for &byte in bytes {
        if byte == b'\n' {
            run.run_line(rt, line.text(), out)?;
            line.clear();
        } else {
            line.push(byte);
        }
    }
    Ok(())
}

// Runs what an input has, and answers whether anything could be read. A line says where a read failed.
fn run_input<R: Print + Files + Alloc>(
    rt: &R,
    run: &mut Run,
    input: &mut impl Read,
    title: Title<'_>,
    out: &mut Output<'_, R>,
) -> io::Result<bool> {
    let mut line = Line::new();
    let mut started = false;
    // A proved loop has to end, and nothing says that the input does: no run uses the turns up.
    for _ in 0..u64::MAX {
        let mut chunk = [0u8; 65536];
        let n = match input.read(&mut chunk) {
            Ok(n) => n,
            Err(error) => {
                out.put_named_error(title.name, FileError::of_read(error))?;
                break;
            }
        };
        if title.several && !started {
            out.put_header(title.name)?;
        }
        started = true;
        if n == 0 {
            if !line.is_empty() {
                run.run_line(rt, line.text(), out)?;
            }
            break;
        }
        feed(rt, run, &mut line, &chunk[..n], out)?;
    }
    Ok(started)
}

// Runs the script of an input.
pub(crate) fn run_script<R: Print + Files + Alloc>(
    rt: &R,
    input: &mut impl Read,
    title: Title<'_>,
    out: &mut Output<'_, R>,
) -> io::Result<()> {
    let mut run = Run::new();
    if run_input(rt, &mut run, input, title, out)? {
        run.finish(out)?;
    }
    Ok(())
}
