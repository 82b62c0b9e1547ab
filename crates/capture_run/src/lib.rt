// A capture run on a device: input steps, and the time under way.
#![tactic(auto)]

ghost use Rattle.std.specs.Prelude.{◌≡◌};
ghost use Rattle.capture_run.specs.Run as run;

use capture_commands::Event;
use capture_dump::Lines;
use device::{Device, Stepped};
use steps::Step;

// The inputs that a word names are taken to a level, lowest number first.
fn driven(inputs: u64, level: bool, before: Stepped) -> Stepped
    ensures { result ≡ run.driven_of inputs level before }
{
    let mut now = before;
    let mut left = inputs;
    while left != 0 {
        let source = u64::from(lanes::lowest(left));
        now = now.device.step(Step::Input { source, level });
        left = lanes::clear_lowest(left);
    }
    now
}

// A device whose inputs are all taken to 0.
pub fn begin(d: Device) -> Stepped
    ensures { result ≡ run.begin_of d }
{
    driven(u64::MAX, false, d.answered(Ok(0), 0))
}

// The device after what a token calls for.
#[tactic(auto, unfolding(crate::specs::Run::acted_of))]
pub fn acted(e: Event, now: Stepped) -> Stepped
    ensures { result ≡ run.acted_of e now }
{
    match e {
        Event::Nothing | Event::Mark(_) => now,
        Event::Change { inputs, level } => driven(inputs, level, now),
    }
}

// The four base lines.
pub fn lines(now: Stepped) -> Lines
    ensures { result ≡ run.lines_of now }
{
    Lines {
        ipi0: now.answer.ipi0,
        ipi1: now.answer.ipi1,
        br0: now.answer.bridge0,
        br1: now.answer.bridge1,
    }
}
