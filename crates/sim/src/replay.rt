// A capture that is replayed from a file to a file. Its text and the dump have large buffers, which are made for each replay and no longer held.
use crate::errors::{Failure, LineError};
use crate::files::{FileError, read_file, write_file};
use crate::flags::Flags;
use crate::number::decimal;
use device::Device;
use std::fmt;
use std::rt::Files;

// The most bytes of a capture. Its buffer has one more, to find a capture that is too long.
const LIMIT: usize = 4194304;

// The most bytes of a dump.
const DUMP_LIMIT: usize = 3145728;

// The number of a refusal, and the place in the capture that shows it.
#[derive(Clone, Copy)]
pub(crate) struct Refused {
    pub(crate) number: u64,
    place: usize,
}

// The bytes of the dump, or the refusal, and the device after the replay.
#[derive(Clone, Copy)]
pub(crate) struct Replay {
    pub(crate) outcome: Result<usize, Refused>,
    pub(crate) device: Device,
}

// What the output says of a replay.
#[derive(Clone, Copy)]
pub(crate) struct Ending {
    pub(crate) outcome: Result<usize, Refused>,
    pub(crate) lines: Flags,
}

impl fmt::Display for Ending {
    fn fmt<W: fmt::Write>(&self, f: &mut fmt::Formatter<W>) -> fmt::Result {
        let lines = self.lines;
        match self.outcome {
            Ok(length) => write!(f, "replayed {} {lines}", decimal(length as u64)),
            Err(Refused { number, place }) => {
                let (number, place) = (decimal(number), decimal(place as u64));
                write!(f, "refused {number} {lines} at {place}")
            }
        }
    }
}

// What stops a replay where a file is at fault.
fn at_fault<'a>(name: &'a str, error: FileError) -> Failure<'a> {
    Failure::Line(LineError::File { name, error })
}

// Replays a capture into a buffer, and writes the dump of one that is accepted to a file.
fn replay_into<'a>(
    rt: &impl Files,
    device: Device,
    text: &[u8],
    to: &'a str,
    dump: &mut [u8],
) -> Result<Replay, Failure<'a>> {
    let replayed = capture_reader::replay_text(device, text, dump, 0);
    let outcome = match replayed.outcome {
        Ok(()) => {
            // The used length is within the buffer; a proof of that here would have to unfold the whole replay.
            let written = dump.get(..replayed.used).unwrap_or_default();
            write_file(rt, to, written).map_err(|error| at_fault(to, error))?;
            Ok(replayed.used)
        }
        Err(fault) => Err(Refused {
            number: u64::from(fault),
            place: replayed.place,
        }),
    };
    Ok(Replay {
        outcome,
        device: replayed.device,
    })
}

// Replays the capture of a file, and writes the dump of one that is accepted to a file.
// Not inlined: the tables of a replay are large, and a line without one would pay for their place on the stack.
#[inline(never)]
pub(crate) fn replay_file<'a>(
    rt: &(impl Files + Alloc),
    device: Device,
    from: &'a str,
    to: &'a str,
) -> Result<Replay, Failure<'a>> {
    let mut text = vec![in rt.alloc(); 0u8; LIMIT + 1]?;
    let length = read_file(rt, from, &mut text).map_err(|error| at_fault(from, error))?;
    if LIMIT < length {
        return Err(at_fault(from, FileError::LongCapture));
    }
    let mut dump = vec![in rt.alloc(); 0u8; DUMP_LIMIT]?;
    replay_into(rt, device, &text[..length], to, &mut dump)
}
