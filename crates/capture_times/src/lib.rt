// The times of a capture: which mark ends a time, and the lines that the next one is compared with. The time under way is None before the first mark.
#![tactic(auto)]

ghost use Rattle.std.specs.Prelude.{◌≡◌};
ghost use Rattle.capture_times.specs.Times as times;

use capture_commands::Event;
use capture_dump::{Lines, Time};

// The time that ends with a mark, if it does.
#[tactic(auto, unfolding(crate::specs::Times::ended_at))]
fn ended_at(time: Option<Time>, n: u64) -> Option<Time>
    ensures { result ≡ times.ended_at time n }
{
    match time {
        Some(t) if t.time < n => time,
        _ => None,
    }
}

// The time that ends with what a token calls for, if it does.
#[tactic(auto, unfolding(crate::specs::Times::ended_of))]
pub fn ended(time: Option<Time>, e: Event) -> Option<Time>
    ensures { result ≡ times.ended_of time e }
{
    match e {
        Event::Mark(n) => ended_at(time, n),
        Event::Nothing | Event::Change { .. } => None,
    }
}

fn new_time(time: u64, first: bool, before: Lines) -> Time
    ensures { result ≡ times.new_time time first before }
{
    Time {
        time,
        first,
        before,
    }
}

#[tactic(auto, unfolding(crate::specs::Times::marked_of))]
fn marked(time: Option<Time>, now: Lines, n: u64) -> Time
    ensures { result ≡ times.marked_of time now n }
{
    match time {
        None => new_time(n, true, now),
        Some(t) if t.time < n => new_time(n, false, now),
        Some(t) => t,
    }
}

// The time under way after what a token calls for.
#[tactic(auto, unfolding(crate::specs::Times::times_of))]
pub fn times_after(time: Option<Time>, now: Lines, e: Event) -> Option<Time>
    ensures { result ≡ times.times_of time now e }
{
    match e {
        Event::Mark(n) => Some(marked(time, now, n)),
        Event::Nothing | Event::Change { .. } => time,
    }
}
