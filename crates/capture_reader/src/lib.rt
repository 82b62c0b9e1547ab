// A reader of a capture: it holds the lent text and a place in it, and copies nothing. Each replay goes through one. The functions over it are few
// and thin: each takes the reader apart and calls a function on the slice and the number.
#![tactic(auto)]

ghost use Rattle.std.specs.Prelude.{◌≡◌};
ghost use Rattle.capture_tokens.specs.Tokens.{token_of};
ghost use Rattle.capture.specs.Replay.{replay_of, buffer_of, replay_from, buffer_from};
ghost use Rattle.capture_reader.specs.Readers.{reader_at};

use capture::Replayed;
use device::Device;
use text::Span;

#[derive(Clone, Copy)]
pub struct Reader<'a> {
    pub text: &'a [u8],
    pub at: usize,
}

// At the beginning of a text.
pub fn new<'a>(text: &'a [u8]) -> Reader<'a>
    ensures { result ≡ reader_at text.entry 0 }
{
    Reader { text, at: 0 }
}

// Where the next token stands, at or after the reader's place; an empty span where there is none. A reader moved to its end is behind it.
pub fn next<'a>(r: Reader<'a>) -> Span
    ensures { result ≡ token_of r.entry.text.now r.entry.at }
{
    capture_tokens::token(r.text, r.at)
}

// The same text at another place.
pub fn moved<'a>(r: Reader<'a>, at: usize) -> Reader<'a>
    ensures { result ≡ reader_at r.entry.text at }
{
    Reader { text: r.text, at }
}

// Replays the capture that begins at the reader's place.
pub fn replay<'a>(d: Device, r: Reader<'a>, out: &mut [u8], used: usize) -> Replayed
    ensures value { result ≡ replay_from d r.entry.text.now r.entry.at out.old used }
    ensures out_after { out.new ≡ buffer_from d r.entry.text.now r.entry.at out.old used }
{
    capture::replay_from(d, r.text, r.at, out, used)
}

// Through a reader that is moved to a place of a text.
fn replay_at(d: Device, text: &[u8], at: usize, out: &mut [u8], used: usize) -> Replayed
    ensures value { result ≡ replay_from d text.now at out.old used }
    ensures out_after { out.new ≡ buffer_from d text.now at out.old used }
{
    replay(d, moved(new(text), at), out, used)
}

// Replays a whole text on a device, and writes the dump behind the used bytes of a buffer.
pub fn replay_text(d: Device, text: &[u8], out: &mut [u8], used: usize) -> Replayed
    ensures value { result ≡ replay_of d text.now out.old used }
    ensures out_after { out.new ≡ buffer_of d text.now out.old used }
{
    replay_at(d, text, 0, out, used)
}
