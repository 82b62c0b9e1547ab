// Texts as byte slices: tokens, tests of a text, text put into a buffer.
#![tactic(auto)]

ghost use Rattle.std.specs.Prelude.{◌≡◌, ℕ, Bool, drop};
ghost use Rattle.bits.specs.Bits.{bit};
ghost use Rattle.numbers.specs.Printed.{hex_of, decimal_of};
ghost use Rattle.text.specs.Tokens.{past as past_of, token_by, token_of, same_of, shown as shown_of, printable_of};
ghost use Rattle.text.specs.Buffers.{Put};

// A part of a text, from its start to before its end.
// No Option where there is no token: an empty span still says where the reading ended, and `token_of` has it (docs/PROOFS.md names `token_by`).
#[derive(Clone, Copy, PartialEq, Eq, Debug)]
pub struct Span {
    pub start: usize,
    pub end: usize,
}

// Bytes of a line as sets of bits: the space and the tab; and with them the `#`, which begins a comment.
const BLANKS: u64 = 0x1_0000_0200;

const ENDS: u64 = 0x9_0000_0200;

// The next token of a line at or after a place; an empty span where there is none.
pub fn token(s: &[u8], from: usize) -> Span
    ensures { result ≡ token_of s.now from }
{
    token_by(s, from.min(s.len()), BLANKS, ENDS)
}

// The next token at or after a place: past the bytes of one set, and up to the next byte of another. Bit c of a set is byte c; a byte above 63 is in none.
// Sets as words and no closures: its clause is `token_by (bit blanks) (bit ends)`, which docs/PROOFS.md names.
pub fn token_by(s: &[u8], from: usize, blanks: u64, ends: u64) -> Span
    ensures { result ≡ token_by (bit blanks) (bit ends) s.now from }
{
    let start = past(s, from, |c| within(blanks, c));
    let end = past(s, start, |c| !within(ends, c));
    Span { start, end }
}

// The place past the bytes of a kind that stand from a place on.
// Not by `position`: its clause is of the closure that wraps `kind`, and the proof from there to `past` did not close.
fn past<F: Fn(u8) -> bool>(s: &[u8], from: usize, kind: F) -> usize
    requires { (c : ℕ) → F.pre kind c }
    ensures { (k : ℕ → Bool) → ((c : ℕ) (b : Bool) → F.post kind c b → b ≡ k c) → result ≡ past_of k s.now from }
{
    let left = rest(s, from);
    for (i, &c) in left.iter().enumerate() {
        if !kind(c) {
            return from + i;
        }
    }
    from + left.len()
}

// What a text has from a place on: nothing past its end.
pub fn rest(s: &[u8], from: usize) -> &[u8]
    ensures { result.now ≡ drop from s.now }
{
    &s[from.min(s.len())..]
}

fn within(set: u64, c: u8) -> bool
    ensures { result ≡ bit set c }
{
    bits::test(set, c as u64)
}

// Whether two texts are equal.
// `==` by another name: the must-fail edit prefix_is_same is of it.
pub fn same(a: &[u8], b: &[u8]) -> bool
    ensures { result ≡ same_of a.now b.now }
{
    a == b
}

// Whether every byte of a text is printable ASCII or a tab.
pub fn printable(s: &[u8]) -> bool
    ensures { result ≡ printable_of s.now }
{
    s.iter().all(|&c| shown(c))
}

// Whether a byte is a tab or printable ASCII.
#[tactic(auto, unfolding(crate::specs::Tokens::shown))]
fn shown(c: u8) -> bool
    ensures { result ≡ shown_of c }
{
    matches!(c, b'\t' | b' '..=b'~')
}

// Puts a text into a buffer at a place and answers the place after it; where it does not fit, nothing changes and the place is answered.
// No Option where it does not fit, and buffer and place as two: docs/PROOFS.md names `put` and its promise `Put`.
pub fn put(out: &mut [u8], at: usize, s: &[u8]) -> usize
    ensures { Put out.old at s.now result out.new }
{
    if out.len() < at || out.len() - at < s.len() {
        return at;
    }
    let end = at + s.len();
    out[at..end].copy_from_slice(s);
    end
}

// Puts a number in hexadecimal, with no `0x` and no leading zeros.
// Two of one line over `put`, this and the next: docs/PROOFS.md names both.
pub fn put_hex(out: &mut [u8], at: usize, n: u64) -> usize
    ensures { Put out.old at (hex_of n) result out.new }
{
    let digits = numbers::hex(n);
    put(out, at, digits.as_slice())
}

// Puts a number in decimal, with no leading zeros.
pub fn put_decimal(out: &mut [u8], at: usize, n: u64) -> usize
    ensures { Put out.old at (decimal_of n) result out.new }
{
    let digits = numbers::decimal(n);
    put(out, at, digits.as_slice())
}
