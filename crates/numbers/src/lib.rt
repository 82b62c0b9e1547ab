// The text of numbers, as byte slices: read, and printed in hexadecimal and decimal.
#![tactic(auto)]

ghost use Rattle.std.specs.Prelude.{◌≡◌, false, ◌+◌, ◌*◌, ◌^◌, ◌≤◌, ◌<◌, drop, SomeIff};
ghost use Rattle.numbers.specs.Numbers.{digit_in, separates as separates_of, formed, value_from, bounded, number_in, number_of};
ghost use Rattle.numbers.specs.Printed.{glyph as glyph_of, digits_of, hex_of, decimal_of, ended};

mod digits;

pub use digits::Digits;

// Why a text is no number below 2^64.
#[derive(Clone, Copy, PartialEq, Eq, Debug)]
pub enum NumberError {
    TooLarge,
    Malformed,
}

// The number that a whole token writes.
pub fn parse_number(s: &[u8]) -> Result<u64, NumberError>
    ensures { result ≡ number_of s.now }
{
    match s.strip_prefix(b"0x") {
        Some(digits) => parse_digits(digits, 16),
        None => parse_digits(s, 10),
    }
}

// The number that the decimal digits from a place on write.
pub fn parse_decimal(s: &[u8], from: usize) -> Result<u64, NumberError>
    ensures { result ≡ number_in 10 (drop from s.now) }
{
    parse_digits(&s[from.min(s.len())..], 10)
}

// The number of a text of digits: its form is judged first.
#[tactic(auto, unfolding(crate::specs::Numbers::number_in))]
fn parse_digits(s: &[u8], base: u32) -> Result<u64, NumberError>
    requires lt_base { 1 < base }
    requires base_bound { base ≤ 16 }
    ensures { result ≡ number_in base s.now }
{
    if !well_formed(s, base) {
        return Err(NumberError::Malformed);
    }
    value(s, base)
}

// Whether a text has the form of digits, with each `_` between two.
fn well_formed(s: &[u8], base: u32) -> bool
    requires lt_base { 1 < base }
    requires base_bound { base ≤ 16 }
    ensures { result ≡ formed base false s.now }
{
    let mut after = false;
    for &c in s {
        if digit(c, base).is_some() {
            after = true;
        } else if separates(base, after, c) {
            after = false;
        } else {
            return false;
        }
    }
    after
}

// The value of the digits of a text, if it is below 2^64.
fn value(s: &[u8], base: u32) -> Result<u64, NumberError>
    requires lt_base { 1 < base }
    requires base_bound { base ≤ 16 }
    ensures { result ≡ bounded (value_from base 0 s.now) }
{
    let mut n = 0u64;
    for &c in s {
        if let Some(d) = digit(c, base) {
            n = with_digit(n, base, d).ok_or(NumberError::TooLarge)?;
        }
    }
    Ok(n)
}

// A value with one more digit, if it is below 2^64.
fn with_digit(n: u64, base: u32, d: u32) -> Option<u64>
    ensures { SomeIff result (n * base + d < 2 ^ 64) (n * base + d) }
{
    n.checked_mul(u64::from(base))?.checked_add(u64::from(d))
}

// The value of a character as a digit of a base.
fn digit(c: u8, base: u32) -> Option<u32>
    requires lt_base { 1 < base }
    requires base_bound { base ≤ 16 }
    ensures { result ≡ digit_in base c }
{
    char::from(c).to_digit(base)
}

// Whether a character is a `_` between the digits of a hexadecimal number.
#[tactic(auto, unfolding(crate::specs::Numbers::separates))]
fn separates(base: u32, after: bool, c: u8) -> bool
    ensures { result ≡ separates_of base after c }
{
    after && base == 16 && c == b'_'
}

// A number in lower-case hexadecimal, with no `0x` and no leading zeros.
// Two of one line over `spell`, this and the next, for the bases that `hex_of` and `decimal_of` are of.
pub fn hex(n: u64) -> Digits
    ensures { result ≡ ended (hex_of n) }
{
    spell(n, 16)
}

// A number in decimal, with no leading zeros.
pub fn decimal(n: u64) -> Digits
    ensures { result ≡ ended (decimal_of n) }
{
    spell(n, 10)
}

// A number in a base in which 20 digits hold it, from the last digit to the first.
// Not by Display, which prints to a formatter: `hex` and `decimal` promise each byte (`hex_of`, `decimal_of`).
fn spell(n: u64, base: u64) -> Digits
    requires lt_base { 1 < base }
    requires base_bound { base ≤ 16 }
    requires n_bound { n < base ^ 20 }
    ensures { result ≡ ended (digits_of base n) }
{
    let mut bytes = [0u8; 20];
    let mut start: usize = 19;
    let mut rest = n;
    // No `for` over the places: they end where the number does, and the end of such a loop would never be reached.
    while base <= rest {
        bytes[start] = glyph(rest % base);
        start -= 1;
        rest = rest / base;
    }
    bytes[start] = glyph(rest);
    Digits { bytes, start }
}

// The character of a digit.
#[tactic(auto, unfolding(crate::specs::Printed::glyph))]
fn glyph(d: u64) -> u8
    requires { d < 16 }
    ensures { result ≡ glyph_of d }
{
    if d < 10 { 48 + d as u8 } else { 87 + d as u8 }
}
