// What a step script means: the step of a line, and how many pairs of a block's writes clash.
#![tactic(auto)]

mod form;

ghost use Rattle.std.specs.Prelude.{◌≡◌, ◌+◌, ◌<◌, ◌≤◌, drop, length, map};
ghost use Rattle.script.specs.Line.{form_step, line_step, line_steps};
ghost use Rattle.script.specs.Block.{BlockRule, clash_count, clashes_with};

use device::Device;
pub use form::{Form, UnknownForm};
use steps::Step;

// ---- the step of a line

#[tactic(auto, unfolding(crate::specs::Line::step_in, crate::specs::Line::forms))]
fn form_step(v: [u64; 7]) -> Option<Step>
    ensures { result ≡ form_step v }
{
    Form::try_from(v[0]).ok()?.step(v)
}

// The step of a line from its values: the number of its form, then the number at each word's place. A line that is unknown is a reset.
// A line as its numbers: docs/PROOFS.md names step_of, and `line_step` is over them.
#[tactic(auto, unfolding(crate::specs::Line::line_step, numbered::specs::Numbered::known_or))]
pub fn step_of(v: [u64; 7]) -> Step
    ensures { result ≡ line_step v }
{
    form_step(v).unwrap_or(Step::Reset)
}

// ---- the writes of a block

// How many of the writes clash with another.
fn clashes_with(write: Step, lines: &[[u64; 7]], second_open: bool) -> u64
    requires { length lines.now ≤ 256 }
    ensures { result ≡ clashes_with second_open write (map line_step lines.now) }
{
    let mut count = 0;
    for line in lines {
        if clashes::find_clash(second_open, write, step_of(*line)).is_some() {
            count += 1;
        }
    }
    count
}

// The lines behind one.
fn behind(lines: &[[u64; 7]], i: usize) -> &[[u64; 7]]
    requires { i < length lines.now }
    ensures { result.now ≡ drop (i + 1) lines.now }
{
    &lines[(i + 1).min(lines.len())..]
}

// How many pairs of the writes clash.
fn clashes_among(lines: &[[u64; 7]], second_open: bool) -> u64
    requires { length lines.now ≤ 256 }
    ensures { result ≡ clash_count second_open (map line_step lines.now) }
{
    let mut count = 0;
    for (i, line) in lines.iter().enumerate() {
        count += clashes_with(step_of(*line), behind(lines, i), second_open);
    }
    count
}

// How many pairs of the first n writes of a block clash, judged in a device; a block has no more than 256. Of a block of listed writes the
// count is 0 exactly if they may be put in any order.
// An array with a count and no slice: docs/PROOFS.md names this function, and BlockRule is of `line_steps n block`.
pub fn clash_count(d: Device, block: &[[u64; 7]; 256], n: usize) -> u64
    ensures { (result ≡ clash_count d.second_open (line_steps n block.now)) × BlockRule d (line_steps n block.now) }
{
    reorder::compared(d);
    clashes_among(&block[..n.min(256)], d.second_open)
}
