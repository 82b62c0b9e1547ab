// Runs step scripts: `sim FILE...` each file on a fresh device, `sim` alone its standard input.
#![tactic(auto)]

mod block;
mod cells;
mod counts;
mod errors;
mod expect;
mod files;
mod flags;
mod form;
mod input;
mod number;
mod output;
mod parse;
mod replay;
mod request;
mod run;
mod words;

use files::FileError;
use input::{Title, run_script};
use output::Output;
use std::env::FillError;
use std::io;
use std::io::{Input, Write};
use std::rt::{Env, Files};

// Runs the file that a title names.
fn run_file<R: Print + Files + Alloc>(
    rt: &R,
    title: Title<'_>,
    out: &mut Output<'_, R>,
) -> io::Result<()> {
    match files::open_named(rt, title.name) {
        Ok(mut file) => run_script(rt, &mut file, title, out),
        Err(error) => out.put_named_error(title.name, error),
    }
}

// Why an argument does not come whole.
fn argument_error(error: FillError) -> FileError {
    match error {
        FillError::TooLong => FileError::LongName,
        FillError::NotPresent => FileError::Unreadable,
    }
}

// Runs the file that an argument names.
fn run_argument<R: Print + Files + Alloc + Env>(
    rt: &R,
    argument: usize,
    several: bool,
    out: &mut Output<'_, R>,
) -> io::Result<()> {
    let mut path = [0u8; 4096];
    match rt.arg(argument, &mut path) {
        Ok(length) => {
            let name = &path[..length];
            run_file(rt, Title { name, several }, out)
        }
        Err(error) => out.put_named_error(b"argument", argument_error(error)),
    }
}

// How many arguments there are, the program's name among them.
// Not std's env::args: it takes memory that may not be there; Env has no count of the arguments.
fn arg_count(rt: &impl Env) -> usize {
    for i in 0..usize::MAX {
        if let Err(FillError::NotPresent) = rt.arg(i, &mut []) {
            return i;
        }
    }
    usize::MAX
}

fn run_all<R: Print + Files + Alloc + Env + Input>(
    rt: &R,
    out: &mut Output<'_, R>,
) -> io::Result<()> {
    let count = arg_count(rt);
    if count < 2 {
        let title = Title {
            name: b"standard input",
            several: false,
        };
        return run_script(rt, &mut rt.reader(), title, out);
    }
    for argument in 1..count {
        run_argument(rt, argument, 2 < count, out)?;
    }
    Ok(())
}

fn main(rt: HostRuntime) -> io::Result<()> {
    let mut out = Output::new(&rt);
    run_all(&rt, &mut out)?;
    out.flush()
}
