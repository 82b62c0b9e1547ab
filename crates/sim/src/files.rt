// Files that are read or written whole, and what is wrong with one that cannot be.
use std::fs::OpenFile;
use std::io::{ErrorKind, Read, Write};
use std::rt::Files;
use std::{fmt, fs, io, str};

// Linux's numbers of the errors that have a line of their own. std's kinds are coarser.
const ENOENT: i32 = 2;

const EIO: i32 = 5;

const EACCES: i32 = 13;

const ENOTDIR: i32 = 20;

const EISDIR: i32 = 21;

const ENAMETOOLONG: i32 = 36;

const ELOOP: i32 = 40;

// Why a file cannot be read or written: Unreadable and Unwritable for any other reason.
#[derive(Clone, Copy)]
pub(crate) enum FileError {
    NotFound,
    Denied,
    Directory,
    NotADirectory,
    LongName,
    Links,
    InputOutput,
    Unreadable,
    Unwritable,
    LongCapture,
}

impl fmt::Display for FileError {
    fn fmt<W: fmt::Write>(&self, f: &mut fmt::Formatter<W>) -> fmt::Result {
        f.write_str(match self {
            FileError::NotFound => "no such file",
            FileError::Denied => "permission denied",
            FileError::Directory => "is a directory",
            FileError::NotADirectory => "a part of the path is not a directory",
            FileError::LongName => "the name is too long",
            FileError::Links => "too many symbolic links",
            FileError::InputOutput => "input or output error",
            FileError::Unreadable => "cannot be read",
            FileError::Unwritable => "cannot be written",
            FileError::LongCapture => "longer than 4 MiB",
        })
    }
}

impl FileError {
    // That of an error of the system which has a line of its own.
    fn of_system(error: io::Error) -> Option<FileError> {
        match error.raw_os_error()? {
            ENOENT => Some(FileError::NotFound),
            EACCES => Some(FileError::Denied),
            EISDIR => Some(FileError::Directory),
            ENOTDIR => Some(FileError::NotADirectory),
            ENAMETOOLONG => Some(FileError::LongName),
            ELOOP => Some(FileError::Links),
            EIO => Some(FileError::InputOutput),
            _ => None,
        }
    }

    pub(crate) fn of_read(error: io::Error) -> FileError {
        FileError::of_system(error).unwrap_or(FileError::Unreadable)
    }

    fn of_write(error: io::Error) -> FileError {
        FileError::of_system(error).unwrap_or(FileError::Unwritable)
    }
}

// Opens the file of a path to be read.
fn open<R: Files>(rt: &R, path: &str) -> Result<R::File, FileError> {
    fs::open(rt, path).map_err(FileError::of_read)
}

// The same of a path that comes from outside. std takes no path that is not UTF-8.
pub(crate) fn open_named<R: Files>(rt: &R, path: &[u8]) -> Result<R::File, FileError> {
    match str::from_utf8(path) {
        Ok(path) => open(rt, path),
        Err(_) => Err(FileError::Unreadable),
    }
}

// Reads from an open file until it ends or the buffer is full, and answers how many bytes came.
fn read_all(file: &mut impl Read, bytes: &mut [u8]) -> io::Result<usize> {
    let mut length = 0;
    // A proved loop has to end: no file uses the turns up, since each but the last reads a byte.
    for _ in 0..u64::MAX {
        let n = file.read(&mut bytes[length..])?;
        if n == 0 {
            break;
        }
        length += n;
    }
    Ok(length)
}

// Reads the file of a path into a buffer.
pub(crate) fn read_file(rt: &impl Files, path: &str, bytes: &mut [u8]) -> Result<usize, FileError> {
    let mut file = open(rt, path)?;
    read_all(&mut file, bytes).map_err(FileError::of_read)
}

// Whether all that was written to a file has arrived: std closes a file without a word, so what is wrong with it has to be asked before.
// Only a regular file can be asked, and where its file system knows no such question nothing is wrong.
fn arrived(file: &impl OpenFile) -> bool {
    match file.metadata() {
        Ok(metadata) if metadata.is_file() => match file.sync_data() {
            Ok(()) => true,
            Err(error) => error.kind() == ErrorKind::InvalidInput,
        },
        _ => true,
    }
}

// Makes or overwrites the file of a path.
pub(crate) fn write_file(rt: &impl Files, path: &str, bytes: &[u8]) -> Result<(), FileError> {
    let mut file = fs::create(rt, path).map_err(FileError::of_write)?;
    if file.write_all(bytes).is_ok() && arrived(&file) {
        Ok(())
    } else {
        Err(FileError::Unwritable)
    }
}
