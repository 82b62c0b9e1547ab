// The ids that a capture's header declares, and the inputs that have them. Nothing is copied, and no number of declarations is too many: what
// the header says of an id is looked up in a table, where it is short, and else by reading the header again.
#![tactic(auto)]

ghost use Rattle.std.specs.Prelude.{◌≡◌, [], take, drop, set};
ghost use Rattle.capture_tokens.specs.Tokens.{tokens_from};
ghost use Rattle.capture_ids.specs.Private.{Passed};
ghost use Rattle.capture_ids.specs.Ids as ids;
ghost use Rattle.capture_ids.specs.Ids.{header_of, look_of, headed_of, added};
ghost use Rattle.capture_ids.specs.Table.{slot_of, inputs_noted, known_noted, look_in};

use capture_header::{Head, begins, ends, next, start, with_input};
use capture_tokens::token;
use text::rest;

// How many slots a table has.
// No map: a library takes no memory (docs/DECISIONS.md, B36).
pub const SLOTS: usize = 16513;

// A header's state at its end, and the place of the first token after it.
#[derive(Clone, Copy)]
pub struct Headed {
    pub head: Head,
    pub at: usize,
}

// A text and the tables of its header's ids: of each slot the inputs that have its id, bit i for input i, and 1 where the id is declared.
// Two tables, and no table of Option: docs/PROOFS.md names `index`, whose promise is of two tables of any lengths and words.
#[derive(Clone, Copy)]
pub struct Ids<'a> {
    pub text: &'a [u8],
    pub inputs: &'a [u64],
    pub known: &'a [u64],
}

// What comes next in a header: its end, at a place, or a token, with the state and the place after it.
// No Result: the end of a header is no error, and the place where it ends is wanted as much as the next state.
#[derive(Clone, Copy)]
enum Past {
    Ended(usize),
    Next { head: Head, at: usize },
}

// So many bytes of a text from a place on, or those that there are.
fn part(s: &[u8], from: usize, size: usize) -> &[u8]
    ensures { result.now ≡ take size (drop from s.now) }
{
    let left = rest(s, from);
    &left[..size.min(left.len())]
}

// The slot of an id; SLOTS where it has none.
// A number, and no Option: `index` notes such an id at that place, where a table has it.
#[tactic(auto, unfolding(crate::specs::Table::slot_of))]
fn slot(x: &[u8]) -> usize
    ensures { result ≡ slot_of x.now }
{
    match *x {
        [] => 0,
        [c] if c < 128 => 1 + c as usize,
        [c, d] if c < 128 && d < 128 => 129 + 128 * c as usize + d as usize,
        _ => SLOTS,
    }
}

// What is known of an id, after one more declaration of it.
#[tactic(auto, unfolding(crate::specs::Ids::more_known))]
fn more_known(known: Option<u64>, input: Option<u64>) -> Option<u64>
    ensures { result ≡ ids.more_known known input }
{
    Some(with_input(known.unwrap_or(0), input))
}

fn note_at(table: &mut [u64], k: usize, word: u64)
    ensures { table.new ≡ set table.old k word }
{
    if k < table.len() {
        table[k] = word;
    }
}

// Notes the variable of a declaration that has ended.
#[tactic(auto, unfolding(crate::specs::Table::inputs_noted, crate::specs::Table::inputs_at, crate::specs::Table::known_noted, crate::specs::Table::known_at))]
fn note(s: &[u8], before: Head, after: Head, inputs: &mut [u64], known: &mut [u64])
    ensures inputs_after { inputs.new ≡ inputs_noted inputs.old (added s.now before after []) }
    ensures known_after { known.new ≡ known_noted known.old (added s.now before after []) }
{
    if ends(before.field, after.field) {
        let v = before.var;
        let k = slot(part(s, v.start, v.size));
        let held = inputs.get(k).copied().unwrap_or(0);
        note_at(inputs, k, with_input(held, v.input));
        note_at(known, k, 1);
    }
}

// The next token of a header, from a state and a place on.
fn pass(s: &[u8], h: Head, at: usize) -> Past
    ensures { Passed s.now h at result }
{
    let span = token(s, at);
    if span.start == span.end {
        return Past::Ended(s.len());
    }
    let t = &s[span.start..span.end];
    if begins(h.field, t) {
        return Past::Ended(span.start);
    }
    Past::Next {
        head: next(h, t, span.start),
        at: span.end,
    }
}

// Reads the header of a text, and notes its variables in two tables.
pub fn index(s: &[u8], inputs: &mut [u64], known: &mut [u64]) -> Headed
    ensures value { result ≡ headed_of s.now }
    ensures at_value { tokens_from s.now result.at ≡ (header_of s.now).rest }
    ensures inputs_after { inputs.new ≡ inputs_noted inputs.old (header_of s.now).variables }
    ensures known_after { known.new ≡ known_noted known.old (header_of s.now).variables }
{
    let mut h = start();
    let mut at = 0;
    loop {
        match pass(s, h, at) {
            Past::Ended(end) => return Headed { head: h, at: end },
            Past::Next { head, at: end } => {
                note(s, h, head, inputs, known);
                h = head;
                at = end;
            }
        }
    }
}

// What is known of an id after a declaration that has ended.
#[tactic(auto, unfolding(crate::specs::Ids::look_from, crate::specs::Ids::noted))]
fn noted(s: &[u8], known: Option<u64>, before: Head, after: Head, x: &[u8]) -> Option<u64>
    ensures { result ≡ ids.look_from x.now known (added s.now before after []) }
{
    let v = before.var;
    if ends(before.field, after.field) && part(s, v.start, v.size) == x {
        more_known(known, v.input)
    } else {
        known
    }
}

// What the header of a text says of an id.
// A loop of its own beside `index`: that writes to tables, this hands on what is known; a closure would need the clauses of both.
pub fn find(s: &[u8], x: &[u8]) -> Option<u64>
    ensures { result ≡ look_of (header_of s.now).variables x.now }
{
    let mut known = None;
    let mut h = start();
    let mut at = 0;
    while let Past::Next { head, at: end } = pass(s, h, at) {
        known = noted(s, known, h, head, x);
        h = head;
        at = end;
    }
    known
}

impl<'a> Ids<'a> {
    // What the header says of an id, by the tables where the id has a slot.
    #[tactic(auto, unfolding(crate::specs::Table::look_in, crate::specs::Table::has_slot))]
    pub fn look_up(self, x: &[u8]) -> Option<u64>
        ensures { result ≡ look_in self.entry.text.now self.entry.inputs.now self.entry.known.now x.now }
    {
        let k = slot(x);
        if k < SLOTS && (k < self.inputs.len() && k < self.known.len()) {
            (self.known[k] == 1).then_some(self.inputs[k])
        } else {
            find(self.text, x)
        }
    }
}
