// The numbers of the output: the texts that crate text promises of them, from which crate numbers reads them back.
ghost use Rattle.std.specs.Prelude.{replicate};
ghost use Rattle.numbers.specs.Printed.{decimal_of, hex_of};
ghost use Rattle.text.specs.Buffers.{Put};

use std::{fmt, str};

// The digits of a number, at the beginning of bytes that hold those of every u64.
// No std formatting: `{}` and `{:x}` promise no byte.
#[derive(Clone, Copy)]
pub(crate) struct Number {
    bytes: [u8; 20],
    length: usize,
}

// A number in hexadecimal, with no `0x`.
pub(crate) fn hex(n: u64) -> Number
    ensures { Put (replicate 20 0) 0 (hex_of n) result.length result.bytes }
{
    let mut bytes = [0; 20];
    let length = text::put_hex(&mut bytes, 0, n);
    Number { bytes, length }
}

// A number in decimal.
pub(crate) fn decimal(n: u64) -> Number
    ensures { Put (replicate 20 0) 0 (decimal_of n) result.length result.bytes }
{
    let mut bytes = [0; 20];
    let length = text::put_decimal(&mut bytes, 0, n);
    Number { bytes, length }
}

impl fmt::Display for Number {
    fn fmt<W: fmt::Write>(&self, f: &mut fmt::Formatter<W>) -> fmt::Result {
        let digits = self.bytes.get(..self.length).unwrap_or_default();
        f.write_str(str::from_utf8(digits).unwrap_or_default())
    }
}
