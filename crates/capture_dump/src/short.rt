// A short text that is made piece by piece.
ghost use Rattle.std.specs.Prelude.{◌≡◌, ℕ, ◌+◌, ◌≤◌, List, [], ◌++◌, length, take};

use std::marker::Model;

// The first bytes are the text. 40 are enough for a time that ends: `#`, 20 digits, a line feed and 3 bytes for each of the four lines.
// No Vec: a library takes no memory. To its callers it is a list (Model).
#[derive(Drop)]
pub struct Short {
    bytes: [u8; 40],
    len: usize,
}

impl Model for Short {
    ghost Value = { List ℕ };

    ghost view = { λ s. take s.len s.bytes };

    ghost invariant = { λ s. s.len ≤ 40 };
}

impl Short {
    pub fn new() -> Short
        ensures { result ≡ [] }
    {
        Short {
            bytes: [0; 40],
            len: 0,
        }
    }

    pub fn push(&mut self, s: &[u8])
        requires { length self.old + length s.now ≤ 40 }
        ensures { self.new ≡ self.old ++ s.now }
    {
        let end = self.len + s.len();
        self.bytes[self.len..end].copy_from_slice(s);
        self.len = end;
    }

    pub fn as_slice(&self) -> &[u8]
        ensures { result.now ≡ self.now }
    {
        &self.bytes[..self.len]
    }
}
