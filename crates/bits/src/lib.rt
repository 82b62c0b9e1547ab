// Words: masked writes and the bits that they move, single bits, a choice of two words and of their bits, the edge-latch rule.
#![tactic(auto)]

ghost use Rattle.std.proofs.Common.{rules};
ghost use Rattle.std.specs.Prelude.{ℕ, ◌≡◌, ◌<◌, ◌^◌, cond, ◌&&◌};
ghost use Rattle.bits.specs.Bits as specs;
ghost use Rattle.bits.specs.Latch as latches;
ghost use Rattle.bits.specs.Words.{WordLaws};
ghost use Rattle.bits.specs.Writes as writes;

// A word of `size` bits.
pub trait Word: Copy {
    ghost size: { ℕ };

    // The word as a number, and the word that a number is.
    ghost number: { Self → ℕ };

    ghost of_number: { ℕ → Self };

    fn wide(self) -> u64
        ensures wide { result ≡ number self }
        ensures fits { number self < 2 ^ size };

    // The word of the low bits.
    fn low(n: u64) -> Self
        ensures { result ≡ of_number (specs.held size n) };

    // The number of the lowest bit that is set; the width where none is.
    fn trailing_zeros(self) -> u32
        ensures { result ≡ specs.first size (specs.bit (number self)) };

    ghost laws: { WordLaws size number of_number };
}

impl Word for u64 {
    ghost size = { 64 };

    ghost number = { λ n. n };

    ghost of_number = { λ n. n };

    fn wide(self) -> u64 {
        self
    }

    #[tactic(auto, using(crate::proofs::Widths::as_held))]
    fn low(n: u64) -> u64 {
        n
    }

    #[tactic(auto, using(crate::proofs::Lowest::trailing_first))]
    fn trailing_zeros(self) -> u32 {
        u64::trailing_zeros(self)
    }

    ghost laws = { Prim.search rules };
}

impl Word for u32 {
    ghost size = { 32 };

    ghost number = { λ n. n };

    ghost of_number = { λ n. n };

    fn wide(self) -> u64 {
        self as u64
    }

    #[tactic(auto, using(crate::proofs::Words::word_mod))]
    fn low(n: u64) -> u32 {
        (n % 0x1_0000_0000) as u32
    }

    #[tactic(auto, using(crate::proofs::Lowest::trailing_first))]
    fn trailing_zeros(self) -> u32 {
        u32::trailing_zeros(self)
    }

    ghost laws = { Prim.search rules };
}

impl Word for u8 {
    ghost size = { 8 };

    ghost number = { λ n. n };

    ghost of_number = { λ n. n };

    fn wide(self) -> u64 {
        self as u64
    }

    #[tactic(auto, using(crate::proofs::Words::word_mod))]
    fn low(n: u64) -> u8 {
        (n % 0x100) as u8
    }

    #[tactic(auto, using(crate::proofs::Lowest::trailing_first))]
    fn trailing_zeros(self) -> u32 {
        u8::trailing_zeros(self)
    }

    ghost laws = { Prim.search rules };
}

// What a step leaves of a cell, a block or the device, and the bits that it moved (request Q-8).
#[derive(Clone, Copy)]
pub struct After<T> {
    pub state: T,
    pub moved: u64,
}

// Bit by bit one of two words: of `a` where `mask` is set, and of `b` elsewhere.
pub fn select<W: Word>(mask: W, a: W, b: W) -> W
    ensures { result ≡ W.of_number (specs.select W.size (W.number mask) (W.number a) (W.number b)) }
{
    let mask = mask.wide();
    W::low((b.wide() & !mask) | (a.wide() & mask))
}

// A write: the bits of `value` where `mask` is set, and of `old` elsewhere. Every bit that a write gives a cell enters by this function, at the
// cell's width, or by the one below; only these two compare old and new.
pub fn merge<W: Word>(old: W, mask: u64, value: u64) -> After<W>
    ensures { result ≡ writes.as_word W.of_number (writes.merged W.size (W.number old) mask value) }
{
    let state = W::low(select(mask, value, old.wide()));
    After {
        state,
        moved: old.wide() ^ state.wide(),
    }
}

// The same of one bit. Mask and value are Bools: as words they cost the gate 27 instructions a step more (docs/DECISIONS.md, B43).
pub fn merge1(old: bool, mask: bool, value: bool) -> After<bool>
    ensures { result ≡ writes.merged1 old mask value }
{
    let state = choose(mask, value, old);
    After {
        state,
        moved: (old != state) as u64,
    }
}

// Bit i of w; past the last bit, false.
pub fn test(w: u64, i: u64) -> bool
    ensures { result ≡ specs.bit w i }
{
    if i < 64 { (w >> i) & 1 == 1 } else { false }
}

// Bit i of w set to b; past the last bit, w as it is.
pub fn put(w: u64, i: u64, b: bool) -> u64
    ensures { result ≡ specs.put 64 w i b }
{
    if i < 64 {
        (w & !(1 << i)) | ((b as u64) << i)
    } else {
        w
    }
}

// a where `first` is true, and b elsewhere. Both stand ready, so that the compiler makes no jump of it.
pub fn choose<T: Copy>(first: bool, a: T, b: T) -> T
    ensures { result ≡ cond first a b }
{
    if first { a } else { b }
}

// Some bit is set in both words.
pub fn common<W: Word>(a: W, b: W) -> bool
    ensures { result ≡ specs.some W.size (λ i. specs.bit (W.number a) i && specs.bit (W.number b) i) }
{
    a.wide() & b.wide() != 0
}

// The latches after the drives went from `before` to `after`: set by a rise in edge mode.
fn risen(edge: u64, before: u64, after: u64, latch: u64) -> u64
    ensures { result ≡ latches.risen 64 edge before after latch }
{
    latch | (edge & (!before & after))
}

// The latches after the modes went from `old` to `new`: cleared where edge mode is left.
fn cleared(old: u64, new: u64, latch: u64) -> u64
    ensures { result ≡ latches.cleared 64 old new latch }
{
    latch & !(old & !new)
}

// The latches after both.
pub fn latched<W: Word>(old: W, new: W, before: W, after: W, latch: W) -> W
    ensures { result ≡ W.of_number (latches.latched W.size (W.number old) (W.number new) (W.number before) (W.number after) (W.number latch)) }
{
    let (old, new) = (old.wide(), new.wide());
    let kept = cleared(old, new, latch.wide());
    W::low(risen(new, before.wide(), after.wide(), kept))
}
