// The simulation commands of a capture: what each token calls for, a time mark or a change of inputs, and the refusals of the text.
#![tactic(auto)]

ghost use Rattle.std.specs.Prelude.{◌≡◌};
ghost use Rattle.capture_tokens.specs.Tokens.{one_of, token as token_at};
ghost use Rattle.capture_commands.specs.Commands as commands;

use access::{BAD_TEXT, EARLIER_TIME, NO_ROOM};
use capture_forms::scan;
use capture_names::{behind, first};
use capture_tokens::{index_of, is_end};
use numbers::NumberError;

// Why a replay is refused, in the order of the numbers: 10 to 12.
#[derive(Clone, Copy, PartialEq, Eq)]
pub enum Fault {
    BadText,
    EarlierTime,
    NoRoom,
}

// The outcome of a replay.
pub type Outcome = Result<(), Fault>;

// What the next token is, or that the text is refused.
// Bad and Late are states and no Err: a refused text is read to its end, and the state stays (docs/DECISIONS.md, B35).
#[derive(Clone, Copy, PartialEq, Eq)]
pub enum Mode {
    Command,
    Comment,
    Dump,
    Id,
    DumpId,
    Bad,
    Late,
}

// The last mark, if there was one, and the place of the last token, or of the first that is refused.
#[derive(Clone, Copy)]
pub struct State {
    pub mode: Mode,
    pub time: Option<u64>,
    pub place: usize,
}

// What a token calls for: nothing, the end of a time or its beginning, inputs that are taken to a level.
// Nothing is a case and no Option: the run, the times and the dump are folds over every event.
#[derive(Clone, Copy)]
pub enum Event {
    Nothing,
    Mark(u64),
    Change { inputs: u64, level: bool },
}

#[derive(Clone, Copy)]
pub struct Reading {
    pub state: State,
    pub event: Event,
}

// The number of a refusal.
impl From<Fault> for u64 {
    ghost use Rattle.std.specs.Prelude.{◌≡◌};
    ghost use Rattle.capture_commands.specs.Commands.{fault_number};

    ghost from_gives = { λ fault number. number ≡ fault_number fault };

    #[tactic(auto, unfolding(crate::specs::Commands::fault_number))]
    fn from(fault: Fault) -> u64 {
        match fault {
            Fault::BadText => BAD_TEXT,
            Fault::EarlierTime => EARLIER_TIME,
            Fault::NoRoom => NO_ROOM,
        }
    }
}

// The refusal's number; 0 where the capture was accepted.
// 0 and no Option, as a step's number (`outcome_number`).
#[tactic(auto, unfolding(crate::specs::Commands::outcome_number))]
pub fn number(outcome: Outcome) -> u64
    ensures { result ≡ commands.outcome_number outcome }
{
    match outcome {
        Ok(()) => 0,
        Err(fault) => u64::from(fault),
    }
}

#[tactic(auto, unfolding(crate::specs::Commands::scalar))]
fn scalar(t: &[u8]) -> bool
    ensures { result ≡ commands.scalar t.now }
{
    matches!(first(t), b'0' | b'1' | b'x' | b'X' | b'z' | b'Z')
}

#[tactic(auto, unfolding(crate::specs::Commands::vector))]
fn vector(t: &[u8]) -> bool
    ensures { result ≡ commands.vector t.now }
{
    matches!(first(t), b'b' | b'B') && capture_forms::vector_form(scan(t, 1, capture_forms::VECTOR))
}

#[tactic(auto, unfolding(crate::specs::Commands::real))]
fn real(t: &[u8]) -> bool
    ensures { result ≡ commands.real t.now }
{
    matches!(first(t), b'r' | b'R') && capture_forms::real_form(scan(t, 1, capture_forms::REAL))
}

fn scalar_id(t: &[u8]) -> &[u8]
    ensures { result.now ≡ commands.scalar_id t.now }
{
    if scalar(t) { behind(t) } else { b"" }
}

// The id that a token carries; an empty one where it carries none.
#[tactic(auto, unfolding(crate::specs::Commands::id_in))]
pub fn id_in(m: Mode, t: &[u8]) -> &[u8]
    ensures { result.now ≡ commands.id_in m t.now }
{
    match m {
        Mode::Command | Mode::Dump => scalar_id(t),
        Mode::Id | Mode::DumpId => t,
        Mode::Comment | Mode::Bad | Mode::Late => b"",
    }
}

fn goes(b: State, mode: Mode) -> Reading
    ensures { result ≡ commands.goes b mode }
{
    Reading {
        state: State { mode, ..b },
        event: Event::Nothing,
    }
}

#[tactic(auto, unfolding(crate::specs::Commands::allowed))]
fn allowed(inputs: u64, c: u8) -> bool
    ensures { result ≡ commands.allowed inputs c }
{
    inputs == 0 || matches!(c, b'0' | b'1')
}

#[tactic(auto, unfolding(crate::specs::Commands::changed))]
fn changed(known: Option<u64>, b: State, mode: Mode, c: u8) -> Reading
    ensures { result ≡ commands.changed known b mode c }
{
    match known {
        Some(inputs) if allowed(inputs, c) => Reading {
            state: State { mode, ..b },
            event: Event::Change {
                inputs,
                level: c == b'1',
            },
        },
        _ => goes(b, Mode::Bad),
    }
}

#[tactic(auto, unfolding(crate::specs::Commands::value_of))]
fn value(known: Option<u64>, b: State, m: Mode, i: Mode, t: &[u8]) -> Reading
    ensures { result ≡ commands.value_of known b m i t.now }
{
    if scalar(t) {
        changed(known, b, m, first(t))
    } else if vector(t) || real(t) {
        goes(b, i)
    } else {
        goes(b, Mode::Bad)
    }
}

// Whether a number is below the last mark, if there was one.
#[tactic(auto, unfolding(crate::specs::Commands::earlier))]
fn earlier(n: u64, last: Option<u64>) -> bool
    ensures { result ≡ commands.earlier n last }
{
    last.is_some_and(|time| n < time)
}

#[tactic(auto, unfolding(crate::specs::Commands::marks_at))]
fn marks_at(b: State, n: u64) -> Reading
    ensures { result ≡ commands.marks_at b n }
{
    if earlier(n, b.time) {
        return goes(b, Mode::Late);
    }
    Reading {
        state: State {
            mode: Mode::Command,
            time: Some(n),
            ..b
        },
        event: Event::Mark(n),
    }
}

#[tactic(auto, unfolding(crate::specs::Commands::timed_of))]
fn timed(b: State, n: Result<u64, NumberError>) -> Reading
    ensures { result ≡ commands.timed_of b n }
{
    match n {
        Ok(n) => marks_at(b, n),
        Err(_) => goes(b, Mode::Bad),
    }
}

fn dump_word(t: &[u8]) -> bool
    ensures { result ≡ one_of commands.dumps t.now }
{
    index_of(b"$dumpall $dumpoff $dumpon $dumpvars", t).is_some()
}

#[tactic(auto, unfolding(crate::specs::Commands::command_of))]
fn command(known: Option<u64>, b: State, t: &[u8]) -> Reading
    ensures { result ≡ commands.command_of known b t.now }
{
    if first(t) == b'#' {
        timed(b, numbers::parse_decimal(t, 1))
    } else if t == b"$comment".as_slice() {
        goes(b, Mode::Comment)
    } else if dump_word(t) {
        goes(b, Mode::Dump)
    } else {
        value(known, b, Mode::Command, Mode::Id, t)
    }
}

#[tactic(auto, unfolding(crate::specs::Commands::comment_of))]
fn comment(b: State, t: &[u8]) -> Reading
    ensures { result ≡ commands.comment_of b t.now }
{
    let mode = if is_end(t) {
        Mode::Command
    } else {
        Mode::Comment
    };
    goes(b, mode)
}

#[tactic(auto, unfolding(crate::specs::Commands::dumped_of))]
fn dumped(known: Option<u64>, b: State, t: &[u8]) -> Reading
    ensures { result ≡ commands.dumped_of known b t.now }
{
    if is_end(t) {
        goes(b, Mode::Command)
    } else {
        value(known, b, Mode::Dump, Mode::DumpId, t)
    }
}

#[tactic(auto, unfolding(crate::specs::Commands::read_in))]
fn read_in(known: Option<u64>, b: State, t: &[u8]) -> Reading
    ensures { result ≡ commands.read_in b.mode known b t.now }
{
    match b.mode {
        Mode::Command => command(known, b, t),
        Mode::Comment => comment(b, t),
        Mode::Dump => dumped(known, b, t),
        Mode::Id => changed(known, b, Mode::Command, 0),
        Mode::DumpId => changed(known, b, Mode::Dump, 0),
        Mode::Bad | Mode::Late => goes(b, b.mode),
    }
}

// Whether the text is refused.
#[tactic(auto, unfolding(crate::specs::Commands::refused))]
pub fn refused(m: Mode) -> bool
    ensures { result ≡ commands.refused m }
{
    matches!(m, Mode::Bad | Mode::Late)
}

// What a token that stands at a place calls for, and the state after it; `known` is what the header says of the id that it carries.
#[tactic(auto, unfolding(crate::specs::Commands::read_of))]
pub fn read(known: Option<u64>, b: State, t: &[u8], at: usize) -> Reading
    ensures { result ≡ commands.read_of known b (token_at at t.now) }
{
    if refused(b.mode) {
        return Reading {
            state: b,
            event: Event::Nothing,
        };
    }
    read_in(known, State { place: at, ..b }, t)
}

// The state before the first token.
pub fn start() -> State
    ensures { result ≡ commands.state_start }
{
    State {
        mode: Mode::Command,
        time: None,
        place: 0,
    }
}

// What the mode after the last token means.
#[tactic(auto, unfolding(crate::specs::Commands::judged))]
pub fn judged(m: Mode) -> Outcome
    ensures { result ≡ commands.judged m }
{
    match m {
        Mode::Command => Ok(()),
        Mode::Late => Err(Fault::EarlierTime),
        _ => Err(Fault::BadText),
    }
}

// 12 comes after the whole file.
#[tactic(auto, unfolding(crate::specs::Commands::with_room))]
pub fn with_room(outcome: Outcome, room: bool) -> Outcome
    ensures { result ≡ commands.with_room outcome room }
{
    outcome?;
    if room { Ok(()) } else { Err(Fault::NoRoom) }
}
