// What a step answers: read data or a refusal, beside the bits that a write moved and the lines.
#![tactic(auto)]

ghost use Rattle.std.specs.Prelude.{◌≡◌};
ghost use Rattle.answers.specs.Answers.{lines_word, outcome_data, outcome_number};

use access::Refusal;

// What a step gives: the data that a read gave (0 for any other step), or why the step was refused.
pub type Outcome = Result<u64, Refusal>;

// The outcome, the bits that a write moved (request Q-8), and the lines after the step: IPI of core 0 and 1, bridge 0 and 1, and the line of core c
// and pin p as bit 4 * c + p of the pins.
#[derive(Clone, Copy)]
pub struct Answer {
    pub outcome: Outcome,
    pub moved: u64,
    pub ipi0: bool,
    pub ipi1: bool,
    pub bridge0: bool,
    pub bridge1: bool,
    pub pins: u8,
}

// The number of the refusal, and 0 where the step was accepted.
// 0 and no Option: a step's number is 0 where it was accepted, as `outcome_number` says and the answers print.
#[tactic(auto, unfolding(crate::specs::Answers::outcome_number))]
pub fn number(outcome: Outcome) -> u64
    ensures { result ≡ outcome_number outcome }
{
    match outcome {
        Ok(_) => 0,
        Err(refusal) => u64::from(refusal),
    }
}

// The read data: 0 for a refusal.
#[tactic(auto, unfolding(crate::specs::Answers::outcome_data))]
pub fn data(outcome: Outcome) -> u64
    ensures { result ≡ outcome_data outcome }
{
    outcome.unwrap_or(0)
}

impl Answer {
    // The twelve lines as one word: bit i is line i, in the order of the answer.
    pub fn lines(self) -> u64
        ensures { result ≡ lines_word self }
    {
        (self.ipi0 as u64)
            | (self.ipi1 as u64) << 1
            | (self.bridge0 as u64) << 2
            | (self.bridge1 as u64) << 3
            | (self.pins as u64) << 4
    }
}
