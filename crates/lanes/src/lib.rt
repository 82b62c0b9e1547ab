// Bytes: byte masks, a byte of many read and written, one bit of many bytes, the bits that some of many bytes have.
#![tactic(auto)]

ghost use Rattle.std.specs.Prelude.{◌≡◌, false, get_or, set};
ghost use Rattle.bits.specs.Bits as words;
ghost use Rattle.lanes.specs.Bytes as bytes;

use bits::Word;

// A byte that is kept: none of its bits is written.
const KEEP: u64 = 0x00;

// A byte that is replaced: all of them are.
const REPLACE: u64 = 0xff;

// Bits 0 and 1.
const BOTH: u8 = 3;

// The four bytes that a byte mask lets through: mask bit j set keeps byte j, else it is replaced. Mask bits from 4 on are not looked at.
pub fn written_bytes(mask: u64) -> u64
    ensures { result ≡ bytes.written_bytes 4 mask }
{
    let mut written: u64 = 0;
    for j in 0..4 {
        let byte = if bits::test(mask, j) { KEEP } else { REPLACE };
        written |= byte << (8 * j);
    }
    written
}

// Byte i; past the last one, 0.
pub fn byte_at(all: &[u8], i: u64) -> u8
    ensures { result ≡ get_or all.now i 0 }
{
    all.get(i as usize).copied().unwrap_or(0)
}

// Byte i becomes v; past the last one nothing does.
pub fn put_at(all: &mut [u8], i: u64, v: u8)
    ensures { all.new ≡ set all.old i v }
{
    // Not by `get_mut`: of a slice that it lent, a proof knows the length alone.
    if i < all.len() as u64 {
        all[i as usize] = v;
    }
}

// The number of the lowest bit that is set; the word's width where none is.
pub fn lowest<W: Word>(w: W) -> u32
    ensures { result ≡ words.first W.size (words.bit (W.number w)) }
{
    w.trailing_zeros()
}

// The word with its lowest set bit cleared.
pub fn clear_lowest<W: Word>(w: W) -> W
    ensures { result ≡ W.of_number (words.put W.size (W.number w) (words.first W.size (words.bit (W.number w))) false) }
{
    let w = w.wide();
    W::low(if w == 0 { 0 } else { w & (w - 1) })
}

// The bytes that `which` picks and that have bit k set. Only those that it picks are looked at.
// Walks over set bits are `while` loops, here and in the crates above: no index is counted, and two of them end before the word does.
pub fn gather<const N: usize, W: Word>(all: [u8; N], which: W, k: u64) -> W
    ensures { result ≡ W.of_number (bytes.gathered W.size all.entry (W.number which) k) }
{
    let mut w = which;
    let mut r: u64 = 0;
    while w.wide() != 0 {
        let i = lowest(w);
        r |= (bits::test(byte_at(&all, i as u64) as u64, k) as u64) << i;
        w = clear_lowest(w);
    }
    W::low(r)
}

// Bits 0 and 1 of the bytes that `which` picks, united. Only those bytes are looked at, and none once both bits are set.
pub fn united(all: [u8; 64], which: u64) -> u8
    ensures { result ≡ bytes.united 2 64 all which }
{
    let mut w = which;
    let mut r: u8 = 0;
    while w != 0 && r != BOTH {
        r |= all[lowest(w) as usize] % 4;
        w = clear_lowest(w);
    }
    r
}
