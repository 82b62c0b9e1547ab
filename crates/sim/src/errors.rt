// What is wrong with a line.
use crate::files::FileError;
use crate::form::Form;
use std::alloc::AllocError;
use std::{fmt, io};

// What is wrong with a word, or with the count of the words.
#[derive(Clone, Copy)]
pub(crate) enum WordError<'a> {
    Missing,
    Unexpected(&'a str),
    Malformed(&'a str),
    TooLarge(&'a str),
    NoBit(&'a str),
    NoFlags(&'a str),
}

impl fmt::Display for WordError<'_> {
    fn fmt<W: fmt::Write>(&self, f: &mut fmt::Formatter<W>) -> fmt::Result {
        match *self {
            WordError::Missing => write!(f, "a word is missing"),
            WordError::Unexpected(word) => write!(f, "\"{word}\" was not expected"),
            WordError::Malformed(word) => write!(f, "\"{word}\" is not a number"),
            WordError::TooLarge(word) => write!(f, "\"{word}\" is above 2^64 - 1"),
            WordError::NoBit(word) => write!(f, "\"{word}\" is neither 0 nor 1"),
            WordError::NoFlags(word) => write!(f, "\"{word}\" is not four or twelve flags"),
        }
    }
}

#[derive(Clone, Copy)]
pub(crate) enum LineError<'a> {
    // A line that cannot be read.
    TooLong,
    Unprintable,
    Word { error: WordError<'a>, form: Form },
    // A line that cannot stand where it does.
    Early,
    AfterError,
    InBlock,
    Unlisted,
    BlockFull,
    Nested,
    NoBegin,
    NoEnd,
    // A file that the line names.
    File { name: &'a str, error: FileError },
}

impl fmt::Display for LineError<'_> {
    fn fmt<W: fmt::Write>(&self, f: &mut fmt::Formatter<W>) -> fmt::Result {
        f.write_str(match *self {
            LineError::TooLong => "the line has more than 1024 bytes",
            LineError::Unprintable => {
                "the line has a byte that is neither printable ASCII nor a tab"
            }
            LineError::Word { error, form } => return write!(f, "{error}, expected: {form}"),
            LineError::Early => "expectation before the first step",
            LineError::AfterError => { "expectation after a line in error, expected: a step first" }
            LineError::InBlock => {
                "expectation in a reorder block, expected: a write of the order rule"
            }
            LineError::Unlisted => "no write of the order rule, left out of the reorder block",
            LineError::BlockFull => "more than 256 writes in the reorder block, left out",
            LineError::Nested => "reorder begin in a reorder block",
            LineError::NoBegin => "reorder end without reorder begin",
            LineError::NoEnd => "reorder begin without reorder end",
            LineError::File { name, error } => return write!(f, "{name}: {error}"),
        })
    }
}

// Why a line was not run: it is wrong, which the output says, or the program cannot go on.
#[derive(Clone, Copy)]
pub(crate) enum Failure<'a> {
    Line(LineError<'a>),
    Program(io::Error),
}

impl<'a> From<LineError<'a>> for Failure<'a> {
    fn from(error: LineError<'a>) -> Failure<'a> {
        Failure::Line(error)
    }
}

impl From<io::Error> for Failure<'_> {
    fn from(error: io::Error) -> Self {
        Failure::Program(error)
    }
}

impl From<AllocError> for Failure<'_> {
    fn from(error: AllocError) -> Self {
        Failure::Program(io::Error::from(error))
    }
}
