// A reorder block: its writes, judged at its end, and a line for each pair of them that clashes.
ghost use Rattle.std.specs.Prelude.{◌≤◌};

use crate::cells::CellName;
use crate::errors::LineError;
use crate::number::{decimal, hex};
use crate::output::Output;
use crate::request::Row;
use clashes::{Clash, find_clash};
use device::Device;
use script::step_of;
use std::io;

// An array with a count: script::clash_count takes them so, and its promise stays.
#[derive(Clone, Copy)]
pub(crate) struct Block {
    // The line that began the block.
    pub(crate) begin: u64,
    rows: [[u64; 7]; 256],
    writes: usize,
    ghost within: { writes ≤ 256 },
}

// Puts the line for two writes, if they clash.
fn put_clash<P: Print>(
    a: Row,
    b: Row,
    second_open: bool,
    line: u64,
    out: &mut Output<'_, P>,
) -> io::Result<()> {
    if let Some(Clash { cell, bits }) = find_clash(second_open, step_of(a), step_of(b)) {
        let (line, first, second) = (decimal(line), decimal(a[6]), decimal(b[6]));
        let (cell, bits) = (CellName(cell), hex(bits));
        out.put_line(format_args!("{line} clash {first} {second} {cell} 0x{bits}"))?;
    }
    Ok(())
}

impl Block {
    pub(crate) fn begun_at(line: u64) -> Block {
        Block {
            begin: line,
            rows: [[0; 7]; 256],
            writes: 0,
        }
    }

    // Keeps a write that the order rule covers.
    pub(crate) fn keep(&mut self, row: Row, second_open: bool) -> Result<(), LineError<'static>> {
        if !reorder::listed(second_open, step_of(row)) {
            return Err(LineError::Unlisted);
        }
        if self.writes == self.rows.len() {
            return Err(LineError::BlockFull);
        }
        self.rows[self.writes] = row;
        self.writes += 1;
        Ok(())
    }

    // Puts the clashes of the writes, judged in a device, and then the verdict.
    pub(crate) fn put_verdict<P: Print>(
        &self,
        device: Device,
        line: u64,
        out: &mut Output<'_, P>,
    ) -> io::Result<()> {
        let rows = &self.rows[..self.writes];
        for (i, a) in rows.iter().enumerate() {
            for b in &rows[i + 1..] {
                put_clash(*a, *b, device.second_open, line, out)?;
            }
        }
        let number = decimal(line);
        match script::clash_count(device, &self.rows, self.writes) {
            0 => out.put_line(format_args!("{number} free {}", decimal(self.writes as u64))),
            count => out.put_line(format_args!("{number} clashes {}", decimal(count))),
        }
    }
}
