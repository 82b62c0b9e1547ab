// The replay of a capture: input steps in file order, and a dump of the four lines behind the used bytes of a buffer.
#![tactic(auto)]

ghost use Rattle.std.specs.Prelude.{◌≡◌, List, [], ℕ, length, Option};
ghost use Rattle.capture_tokens.specs.Tokens.{tokens_from};
ghost use Rattle.capture_ids.specs.Table.{look_in};
ghost use Rattle.capture_commands.specs.Commands.{state_start};
ghost use Rattle.capture_times.specs.Times.{times_start};
ghost use Rattle.capture.specs.Replay.{replay_of, buffer_of, replay_from, buffer_from};
ghost use Rattle.capture.specs.Private.{Walks, Wholes, Rests};

use capture_commands::{Fault, Outcome, State, id_in, judged, read, refused, with_room};
use capture_dump::{Time, put_end, put_opening};
use capture_header::Field;
use capture_ids::{Ids, SLOTS};
use capture_run::{acted, begin, lines};
use capture_times::{ended, times_after};
use capture_tokens::token;
use device::{Device, Stepped};

// The outcome, the place of the token that shows a refusal, the used length and the device.
// place and used stand beside the outcome: `replay_of` fixes them in both cases, the text's end and the used length as it was.
#[derive(Clone, Copy)]
pub struct Replayed {
    pub outcome: Outcome,
    pub place: usize,
    pub used: usize,
    pub device: Device,
}

// Where a walk has come to; the pen is the place behind what was dumped, None once something did not fit.
#[derive(Clone, Copy)]
pub struct Walked {
    pub state: State,
    pub now: Stepped,
    pub pen: Option<usize>,
}

// The end of the file ends the last time.
fn finish(
    out: &mut [u8],
    pen: Option<usize>,
    state: State,
    time: Option<Time>,
    now: Stepped,
    write: bool,
) -> Walked
    ensures { (look : List ℕ → Option ℕ) → Walks look [] state time now out.old write pen result out.new }
{
    Walked {
        state,
        now,
        pen: put_end(out, pen, time, lines(now), write),
    }
}

// The tokens from a place on.
// A loop and no iterator of tokens: the state says what the next token is looked up as. out, pen and write go side by side as put_end takes them.
fn walk(
    ids: Ids<'_>,
    from: usize,
    first: Stepped,
    out: &mut [u8],
    pen: Option<usize>,
    write: bool,
) -> Walked
    ensures { Walks (look_in ids.entry.text.now ids.entry.inputs.now ids.entry.known.now) (tokens_from ids.entry.text.now from) state_start times_start first out.old write pen result out.new }
{
    let mut state = capture_commands::start();
    let mut now = first;
    let mut time = None;
    let mut pen = pen;
    let mut at = from;
    loop {
        let span = token(ids.text, at);
        if span.start == span.end {
            return finish(out, pen, state, time, now, write);
        }
        let t = &ids.text[span.start..span.end];
        let known = ids.look_up(id_in(state.mode, t));
        let reading = read(known, state, t, span.start);
        let before = lines(now);
        pen = put_end(out, pen, ended(time, reading.event), before, write);
        time = times_after(time, before, reading.event);
        now = acted(reading.event, now);
        state = reading.state;
        at = span.end;
    }
}

// The whole dump, behind no byte.
fn walk_all(ids: Ids<'_>, from: usize, first: Stepped, out: &mut [u8], write: bool) -> Walked
    ensures { Wholes (look_in ids.entry.text.now ids.entry.inputs.now ids.entry.known.now) (tokens_from ids.entry.text.now from) first out.old write result out.new }
{
    let pen = put_opening(out, Some(0), write);
    walk(ids, from, first, out, pen, write)
}

// A first walk judges and measures, and a second one writes.
fn replay_rest(d: Device, ids: Ids<'_>, from: usize, out: &mut [u8]) -> Replayed
    ensures { Rests (look_in ids.entry.text.now ids.entry.inputs.now ids.entry.known.now) (tokens_from ids.entry.text.now from) (length ids.entry.text.now) out.old d result out.new }
{
    let first = begin(d);
    let tried = walk_all(ids, from, first, out, false);
    let mode = tried.state.mode;
    let outcome = with_room(judged(mode), tried.pen.is_some());
    let place = if refused(mode) {
        tried.state.place
    } else {
        ids.text.len()
    };
    if outcome.is_err() {
        return Replayed {
            outcome,
            place,
            used: 0,
            device: d,
        };
    }
    walk_all(ids, from, first, out, true);
    Replayed {
        outcome,
        place,
        used: tried.pen.unwrap_or(0),
        device: tried.now.device,
    }
}

// The capture is the whole text.
fn replay(d: Device, s: &[u8], out: &mut [u8], used: usize) -> Replayed
    ensures value { result ≡ replay_of d s.now out.old used }
    ensures out_after { out.new ≡ buffer_of d s.now out.old used }
{
    // Two tables: docs/PROOFS.md names `index`, whose promise is of two, of any lengths and words.
    let mut inputs = [0u64; SLOTS];
    let mut known = [0u64; SLOTS];
    let headed = capture_ids::index(s, &mut inputs, &mut known);
    let head = headed.head;
    if head.field == Field::Command {
        let ids = Ids {
            text: s,
            inputs: &inputs,
            known: &known,
        };
        let start = used.min(out.len());
        let rest = replay_rest(d, ids, headed.at, &mut out[start..]);
        return Replayed {
            used: used + rest.used,
            ..rest
        };
    }
    Replayed {
        outcome: Err(Fault::BadText),
        place: if head.field == Field::Bad {
            head.place
        } else {
            s.len()
        },
        used,
        device: d,
    }
}

// Replays the capture that stands in a text from a place on, on a device, and writes the dump behind the used bytes of a buffer.
// The buffer with its used length and the text with a place: docs/PROOFS.md names replay_from, replay and replay_text.
pub fn replay_from(d: Device, s: &[u8], at: usize, out: &mut [u8], used: usize) -> Replayed
    ensures value { result ≡ replay_from d s.now at out.old used }
    ensures out_after { out.new ≡ buffer_from d s.now at out.old used }
{
    let start = at.min(s.len());
    let rest = replay(d, &s[start..], out, used);
    Replayed {
        place: at + rest.place,
        ..rest
    }
}
