// Lines as flags, of which the lowest bit is the first line.
use std::fmt;

#[derive(Clone, Copy, PartialEq, Eq)]
pub(crate) struct Flags {
    bits: u64,
    count: u32,
}

impl Flags {
    // All lines of an answer.
    pub(crate) fn twelve(lines: u64) -> Flags {
        Flags {
            bits: lines,
            count: 12,
        }
    }

    // As many of the first lines as there are other flags: four or all twelve.
    pub(crate) fn first(self, others: Flags) -> Flags {
        if others.count == 4 {
            Flags {
                bits: self.bits % 16,
                count: 4,
            }
        } else {
            self
        }
    }

    // The flags that a word of four or twelve digits writes.
    pub(crate) fn of_word(word: &str) -> Option<Flags> {
        let count = match word.len() {
            4 => 4,
            12 => 12,
            _ => return None,
        };
        let mut bits = 0;
        for digit in word.bytes().rev() {
            bits = match digit {
                b'0' => bits << 1,
                b'1' => bits << 1 | 1,
                _ => return None,
            };
        }
        Some(Flags { bits, count })
    }
}

impl fmt::Display for Flags {
    fn fmt<W: fmt::Write>(&self, f: &mut fmt::Formatter<W>) -> fmt::Result {
        let mut left = self.bits;
        for _ in 0..self.count {
            f.write_str(if left % 2 == 0 { "0" } else { "1" })?;
            left /= 2;
        }
        Ok(())
    }
}
