// The tokens of a capture as places of a lent text: nothing is copied.
#![tactic(auto)]

ghost use Rattle.std.specs.Prelude.{◌≡◌};
ghost use Rattle.capture_tokens.specs.Tokens.{token_of, words_of, index_of, is_end};

use text::Span;

// White space as a set of bits: bytes 9, 10, 12, 13 and 32.
const WHITE: u64 = 0x1_0000_3600;

// The next token at or after a place; an empty span where there is none.
pub fn token(s: &[u8], from: usize) -> Span
    ensures { result ≡ token_of s.now from }
{
    text::token_by(s, from, WHITE, WHITE)
}

// The place of the first word of a list that equals a text, counted in words.
pub fn index_of(list: &[u8], t: &[u8]) -> Option<usize>
    ensures { result ≡ index_of (words_of list.now) t.now }
{
    let mut at = 0;
    // There are no more words than bytes.
    for n in 0..list.len() {
        let span = token(list, at);
        if span.start == span.end {
            return None;
        }
        if t == &list[span.start..span.end] {
            return Some(n);
        }
        at = span.end;
    }
    None
}

// Whether a token ends a section.
pub fn is_end(t: &[u8]) -> bool
    ensures { result ≡ is_end t.now }
{
    t == b"$end".as_slice()
}
