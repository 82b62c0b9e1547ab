// The header of a capture: its declarations, read token by token.
#![tactic(auto)]

ghost use Rattle.std.specs.Prelude.{◌≡◌};
ghost use Rattle.capture_tokens.specs.Tokens.{one_of, token as token_at};
ghost use Rattle.capture_header.specs.Header as header;

use capture_forms::{REFERENCE, scan};
use capture_tokens::{index_of, is_end};
use numbers::NumberError;

// What the next token is.
// Bad is a state and no Err: it stays, as the state machine of the definition has it (docs/DECISIONS.md, B35).
#[derive(Clone, Copy, PartialEq, Eq)]
pub enum Field {
    Command,
    Text,
    Kind,
    Size,
    Id,
    Name,
    Bad,
}

// The declaration under way: a wire, one bit wide; its id, by its first byte's place and its length; the form of its reference so far, and
// the input that it names.
#[derive(Clone, Copy)]
pub struct Var {
    pub wire: bool,
    pub one: bool,
    pub start: usize,
    pub size: usize,
    pub form: u8,
    pub input: Option<u64>,
}

const NO_VAR: Var = Var {
    wire: false,
    one: false,
    start: 0,
    size: 0,
    form: 0,
    input: None,
};

// The inputs that are declared, and the place of the last token, or of the first that is bad.
#[derive(Clone, Copy)]
pub struct Head {
    pub field: Field,
    pub var: Var,
    pub seen: u64,
    pub place: usize,
}

fn goes(h: Head, field: Field) -> Head
    ensures { result ≡ header.goes h field }
{
    Head { field, ..h }
}

fn reading(h: Head, field: Field, var: Var) -> Head
    ensures { result ≡ header.reading h field var }
{
    Head { field, var, ..h }
}

// The state before the first token.
pub fn start() -> Head
    ensures { result ≡ header.head_start }
{
    Head {
        field: Field::Command,
        var: NO_VAR,
        seen: 0,
        place: 0,
    }
}

fn section(t: &[u8]) -> bool
    ensures { result ≡ one_of header.sections t.now }
{
    index_of(
        b"$comment $date $enddefinitions $scope $timescale $upscope $version",
        t,
    )
    .is_some()
}

fn kind(t: &[u8]) -> bool
    ensures { result ≡ one_of header.types t.now }
{
    index_of(
        b"event integer parameter real realtime reg supply0 supply1 time tri triand trior trireg tri0 tri1 wand wire wor",
        t,
    )
    .is_some()
}

#[tactic(auto, unfolding(crate::specs::Header::declares))]
fn declares(t: &[u8]) -> bool
    ensures { result ≡ header.declares t.now }
{
    t == b"$var".as_slice() || section(t)
}

#[tactic(auto, unfolding(crate::specs::Header::free))]
fn free(v: Var, seen: u64) -> bool
    ensures { result ≡ header.free v.input v.one seen }
{
    match v.input {
        Some(i) => v.one && !bits::test(seen, i),
        None => true,
    }
}

#[tactic(auto, unfolding(crate::specs::Header::right))]
fn right(v: Var, seen: u64) -> bool
    ensures { result ≡ header.right v seen }
{
    v.form != 0 && free(v, seen)
}

// A word with the bit of an input set, if there is one.
#[tactic(auto, unfolding(crate::specs::Header::with_input))]
pub fn with_input(w: u64, input: Option<u64>) -> u64
    ensures { result ≡ header.with_input w input }
{
    match input {
        Some(i) => bits::put(w, i, true),
        None => w,
    }
}

#[tactic(auto, unfolding(crate::specs::Header::declared))]
fn declared(h: Head) -> Head
    ensures { result ≡ header.declared h }
{
    if !capture_forms::reference_form(h.var.form) {
        return goes(h, Field::Bad);
    }
    Head {
        field: Field::Command,
        seen: with_input(h.seen, h.var.input),
        ..h
    }
}

#[tactic(auto, unfolding(crate::specs::Header::opened))]
fn opened(h: Head, t: &[u8]) -> Head
    ensures { result ≡ header.opened h t.now }
{
    let field = if t == b"$var".as_slice() {
        Field::Kind
    } else {
        Field::Text
    };
    goes(h, field)
}

#[tactic(auto, unfolding(crate::specs::Header::skipped))]
fn skipped(h: Head, t: &[u8]) -> Head
    ensures { result ≡ header.skipped h t.now }
{
    let field = if is_end(t) {
        Field::Command
    } else {
        Field::Text
    };
    goes(h, field)
}

#[tactic(auto, unfolding(crate::specs::Header::typed))]
fn typed(h: Head, t: &[u8]) -> Head
    ensures { result ≡ header.typed h t.now }
{
    if !kind(t) {
        return goes(h, Field::Bad);
    }
    let wire = t == b"wire".as_slice();
    reading(h, Field::Size, Var { wire, ..NO_VAR })
}

fn size_is(h: Head, one: bool) -> Head
    ensures { result ≡ header.size_is h one }
{
    let wire = h.var.wire;
    reading(
        h,
        Field::Id,
        Var {
            wire,
            one,
            ..NO_VAR
        },
    )
}

#[tactic(auto, unfolding(crate::specs::Header::sized_of))]
fn sized(h: Head, size: Result<u64, NumberError>) -> Head
    ensures { result ≡ header.sized_of h size }
{
    match size {
        Ok(n) => size_is(h, n == 1),
        Err(NumberError::TooLarge) => size_is(h, false),
        Err(NumberError::Malformed) => goes(h, Field::Bad),
    }
}

#[tactic(auto, unfolding(crate::specs::Header::id_text))]
fn id_form(t: &[u8]) -> bool
    ensures { result ≡ header.id_text t.now }
{
    !is_end(t) && capture_forms::id_form(scan(t, 0, capture_forms::ID))
}

#[tactic(auto, unfolding(crate::specs::Header::identified))]
fn identified(h: Head, t: &[u8], at: usize) -> Head
    ensures { result ≡ header.identified h (token_at at t.now) }
{
    if !id_form(t) {
        return goes(h, Field::Bad);
    }
    let var = Var {
        start: at,
        size: t.len(),
        form: REFERENCE,
        input: None,
        ..h.var
    };
    reading(h, Field::Name, var)
}

#[tactic(auto, unfolding(crate::specs::Header::input_in))]
fn input_in(v: Var, t: &[u8]) -> Option<u64>
    ensures { result ≡ header.input_in v t.now }
{
    if v.wire && v.form == REFERENCE {
        capture_names::input_of(t)
    } else {
        v.input
    }
}

fn longer(v: Var, t: &[u8]) -> Var
    ensures { result ≡ header.longer v t.now }
{
    Var {
        form: capture_forms::next(scan(t, 0, v.form), b' '),
        input: input_in(v, t),
        ..v
    }
}

#[tactic(auto, unfolding(crate::specs::Header::named))]
fn named(h: Head, v: Var) -> Head
    ensures { result ≡ header.named h v }
{
    if right(v, h.seen) {
        reading(h, Field::Name, v)
    } else {
        goes(h, Field::Bad)
    }
}

#[tactic(auto, unfolding(crate::specs::Header::referred))]
fn referred(h: Head, t: &[u8]) -> Head
    ensures { result ≡ header.referred h t.now }
{
    if is_end(t) {
        declared(h)
    } else {
        named(h, longer(h.var, t))
    }
}

#[tactic(auto, unfolding(crate::specs::Header::next_at))]
fn next_at(h: Head, t: &[u8], at: usize) -> Head
    ensures { result ≡ header.next_at h.field h (token_at at t.now) }
{
    match h.field {
        Field::Command => opened(h, t),
        Field::Text => skipped(h, t),
        Field::Kind => typed(h, t),
        Field::Size => sized(h, numbers::parse_decimal(t, 0)),
        Field::Id => identified(h, t, at),
        Field::Name => referred(h, t),
        Field::Bad => h,
    }
}

// The state after a token that stands at a place.
#[tactic(auto, unfolding(crate::specs::Header::head_next, crate::specs::Header::bad_field))]
pub fn next(h: Head, t: &[u8], at: usize) -> Head
    ensures { result ≡ header.head_next h (token_at at t.now) }
{
    if h.field == Field::Bad {
        return h;
    }
    Head {
        place: at,
        ..next_at(h, t, at)
    }
}

// Whether a token between two states ended a declaration.
#[tactic(auto, unfolding(crate::specs::Header::ends, crate::specs::Header::in_name, crate::specs::Header::at_command))]
pub fn ends(before: Field, after: Field) -> bool
    ensures { result ≡ header.ends before after }
{
    before == Field::Name && after == Field::Command
}

// Whether a token begins no declaration where one could stand.
#[tactic(auto, unfolding(crate::specs::Header::begins, crate::specs::Header::at_command))]
pub fn begins(f: Field, t: &[u8]) -> bool
    ensures { result ≡ header.begins f t.now }
{
    f == Field::Command && !declares(t)
}
