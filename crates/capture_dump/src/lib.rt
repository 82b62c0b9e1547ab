// The dump of the four lines, put into a buffer piece by piece, or only measured.
#![tactic(auto)]

ghost use Rattle.std.specs.Prelude.{◌≡◌, ◌+◌, ◌≤◌, ◌++◌, length, SomeIff};
ghost use Rattle.capture_dump.specs.Dump.{opening, value_text, line_text, lines_text, time_text, differs as differs_of, some_differs, mark_text, end_text};
ghost use Rattle.capture_dump.specs.Pieces.{Inked};

use short::Short;

mod short;

// The four base lines.
#[derive(Clone, Copy, PartialEq, Eq, Debug)]
pub struct Lines {
    pub ipi0: bool,
    pub ipi1: bool,
    pub br0: bool,
    pub br1: bool,
}

// A time: whether it is the first, and the lines at the end of the one before; before the first they are those at the start, so that no Option has both.
#[derive(Clone, Copy)]
pub struct Time {
    pub time: u64,
    pub first: bool,
    pub before: Lines,
}

// The place after a piece of n bytes in a buffer of `size` bytes, if it fits.
fn room(size: usize, at: usize, n: usize) -> Option<usize>
    ensures { SomeIff result (at + n ≤ size) (at + n) }
{
    at.checked_add(n).filter(|&end| end <= size)
}

// Puts a piece into a buffer, or only measures it. The place is None once something did not fit.
// The lent buffer is no field beside the place and `write`: contracts speak of what it holds before and after, which a struct would only wrap.
// `write` is a flag and no closure: Inked, which docs/PROOFS.md names, has it, and both walks have one contract.
fn emit(out: &mut [u8], p: Option<usize>, s: &[u8], write: bool) -> Option<usize>
    ensures { Inked out.old write p s.now result out.new }
{
    let at = p?;
    let end = room(out.len(), at, s.len())?;
    if write {
        text::put(out, at, s);
    }
    Some(end)
}

fn push_value(m: &mut Short, on: bool, id: u8)
    requires { length m.old ≤ 37 }
    ensures text { m.new ≡ m.old ++ value_text on id }
    ensures size { length m.new ≤ length m.old + 3 }
{
    let digit = if on { b'1' } else { b'0' };
    m.push(&[digit, id, b'\n']);
}

fn push_line(m: &mut Short, shows: bool, on: bool, id: u8)
    requires { length m.old ≤ 37 }
    ensures text { m.new ≡ m.old ++ line_text shows on id }
    ensures size { length m.new ≤ length m.old + 3 }
{
    if shows {
        push_value(m, on, id);
    }
}

fn push_time(m: &mut Short, n: u64)
    requires { length m.old ≤ 18 }
    ensures text { m.new ≡ m.old ++ time_text n }
    ensures size { length m.new ≤ length m.old + 22 }
{
    let digits = numbers::decimal(n);
    m.push(b"#");
    m.push(digits.as_slice());
    m.push(b"\n");
}

fn push_lines(m: &mut Short, first: bool, before: Lines, after: Lines)
    requires { length m.old ≤ 28 }
    ensures { m.new ≡ m.old ++ lines_text first before after }
{
    push_line(m, differs(first, before.ipi0, after.ipi0), after.ipi0, b'a');
    push_line(m, differs(first, before.ipi1, after.ipi1), after.ipi1, b'b');
    push_line(m, differs(first, before.br0, after.br0), after.br0, b'c');
    push_line(m, differs(first, before.br1, after.br1), after.br1, b'd');
}

#[tactic(auto, unfolding(crate::specs::Dump::differs))]
fn differs(first: bool, before: bool, after: bool) -> bool
    ensures { result ≡ differs_of first before after }
{
    first || before != after
}

fn some_differs(first: bool, before: Lines, after: Lines) -> bool
    ensures { result ≡ some_differs first before after }
{
    first || before != after
}

// The text of a time that ends.
fn mark(t: Time, after: Lines) -> Short
    ensures { result ≡ mark_text t after }
{
    let before = t.before;
    let mut m = Short::new();
    if some_differs(t.first, before, after) {
        push_time(&mut m, t.time);
        push_lines(&mut m, t.first, before, after);
    }
    m
}

// Puts a time that ends, if one does, or only measures it.
pub fn put_end(
    out: &mut [u8],
    p: Option<usize>,
    ended: Option<Time>,
    after: Lines,
    write: bool,
) -> Option<usize>
    ensures { Inked out.old write p (end_text ended after) result out.new }
{
    match ended {
        Some(t) => {
            let m = mark(t, after);
            emit(out, p, m.as_slice(), write)
        }
        None => emit(out, p, b"", write),
    }
}

// Puts the declarations and the end of definitions, or only measures them.
#[tactic(auto, unfolding(crate::specs::Dump::opening))]
pub fn put_opening(out: &mut [u8], p: Option<usize>, write: bool) -> Option<usize>
    ensures { Inked out.old write p opening result out.new }
{
    emit(
        out,
        p,
        b"$var wire 1 a ipi0 $end\n$var wire 1 b ipi1 $end\n$var wire 1 c br0 $end\n$var wire 1 d br1 $end\n$enddefinitions $end\n",
        write,
    )
}
