// What a line asks for.
use crate::expect::Expectation;

// The numbers of a step's line as script's step_of and clash_count take them, whose promises stay: its form, then the number at each word's place,
// that of a register at its name's, and last the line's own number.
pub(crate) type Row = [u64; 7];

#[derive(Clone, Copy)]
pub(crate) enum Request<'a> {
    Blank,
    Step(Row),
    Replay { from: &'a str, to: &'a str },
    Expect(Expectation),
    Begin,
    End,
}
