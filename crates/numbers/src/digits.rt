// The digits of a printed number.
ghost use Rattle.std.specs.Prelude.{◌≡◌, ◌≤◌, drop};

// The digits of a number, at the end of the bytes, from the start on.
// No Vec or String: a library takes no memory; `hex` and `decimal` promise a Digits (`ended`).
#[derive(Clone, Copy)]
pub struct Digits {
    pub bytes: [u8; 20],
    pub start: usize,
    ghost inside: { start ≤ 20 },
}

impl Digits {
    // The digits alone.
    pub fn as_slice(&self) -> &[u8]
        ensures { result.now ≡ drop self.now.start self.now.bytes }
    {
        &self.bytes[self.start..]
    }
}
