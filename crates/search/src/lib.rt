// The lowest bit of a word that is set, looked for by groups of eight (request Q-5).
#![tactic(auto)]

ghost use Rattle.std.specs.Prelude.{◌≡◌, ◌<◌};
ghost use Rattle.bits.specs.Bits.{bit, first, some, word};
ghost use Rattle.search.specs.Groups.{first_group, found, in_group};

// The bits of group g, the first as bit 0.
fn group(w: u64, g: u64) -> u64
    requires { g < 8 }
    ensures { result ≡ word 8 (in_group 8 (bit w) g) }
{
    (w >> (8 * g)) % 256
}

// Some bit of group g is set.
fn any_in(w: u64, g: u64) -> bool
    requires { g < 8 }
    ensures { result ≡ some 8 (in_group 8 (bit w) g) }
{
    group(w, g) != 0
}

// The first group that has a bit set.
fn first_group(w: u64) -> Option<u64>
    ensures { result ≡ found 8 (first_group 8 8 (bit w)) }
{
    (0..8).find(|&g| any_in(w, g))
}

// The lowest bit of a group that is set.
fn lowest_in(group: u64) -> Option<u64>
    ensures { result ≡ found 8 (first 8 (bit group)) }
{
    (0..8).find(|&j| bits::test(group, j))
}

// The lowest bit that is set: first its group, then its place there.
pub fn lowest(w: u64) -> Option<u64>
    ensures { result ≡ found 64 (first 64 (bit w)) }
{
    let g = first_group(w)?;
    let j = lowest_in(group(w, g))?;
    Some(8 * g + j)
}
