// Section 8.1.3: fixed and turn mode: the outputs that sources show on, and which output comes next (request Q-6). Bit i of each word and
// byte i of the routes belong to source i.
#![tactic(auto)]

ghost use Rattle.std.specs.Prelude.{◌≡◌, not, ◌&&◌, get_or};
ghost use Rattle.bits.specs.Bits.{bit, word};
ghost use Rattle.turns.specs.Turns.{next_turn, outputs_of, showing, shown_on, turns_of};

// What decides where sources show.
#[derive(Clone, Copy)]
pub struct Turns {
    pub routes: [u8; 64],

    // AUTO_CTRL0: a 1 is turn mode.
    pub auto: u64,

    // Each turn bit names output 0 or 1.
    pub turn: u64,
}

#[tactic(auto, using(crate::proofs::Sources::both_word))]
fn both(a: u64, b: u64) -> u64
    ensures { result ≡ word 64 (λ i. bit a i && bit b i) }
{
    a & b
}

#[tactic(auto, using(crate::proofs::Sources::without_word))]
fn without(a: u64, b: u64) -> u64
    ensures { result ≡ word 64 (λ i. bit a i && not (bit b i)) }
{
    a & !b
}

// The outputs that one source shows on, output k as bit k.
#[tactic(auto, using(crate::proofs::Route::one_route))]
fn shown(route: u8, auto: bool, turn: bool) -> u8
    ensures { result ≡ word 2 (shown_on route auto turn) }
{
    let to = route % 4;
    if to < 3 {
        return to;
    }
    if auto { 1 + turn as u8 } else { 3 }
}

// The turn bits after some sources moved on: `to0` has those with route bit 0, `to1` those with route bit 1. A turn leaves the output that it
// names where the source is routed to that output.
#[tactic(auto, using(crate::proofs::Sources::moved_word))]
fn moved_on(turn: u64, to0: u64, to1: u64) -> u64
    ensures { result ≡ word 64 (λ i. next_turn (bit to0 i) (bit to1 i) (bit turn i)) }
{
    (turn & !to1) | (!turn & to0)
}

impl Turns {
    // The sources in `which` that are routed to output k, but for those in `waits` that are routed to the other output too.
    fn shown_on(self, which: u64, k: u64, other: u64, waits: u64) -> u64
        ensures { result ≡ word 64 (λ i. bit which i && (bit (get_or self.routes i 0) k && not (bit waits i && bit (get_or self.routes i 0) other))) }
    {
        let sources = lanes::gather(self.routes, which, k);
        without(
            sources,
            lanes::gather(self.routes, both(sources, waits), other),
        )
    }

    // The sources in `which` that show on output 0. Those in turn mode wait there while their turn bit names output 1. Not one function of the output's
    // number: at output 0 those wait whose turn bit is 1, at output 1 those whose turn bit is 0.
    pub fn shown_on_0(self, which: u64) -> u64
        ensures { result ≡ showing self.routes self.auto self.turn which 0 }
    {
        self.shown_on(which, 0, 1, both(self.auto, self.turn))
    }

    // The sources in `which` that show on output 1.
    pub fn shown_on_1(self, which: u64) -> u64
        ensures { result ≡ showing self.routes self.auto self.turn which 1 }
    {
        self.shown_on(which, 1, 0, without(self.auto, self.turn))
    }

    // The outputs that some source in `which` shows on. Those in fixed mode are looked at first, those in turn mode after them, and none once
    // both outputs are found.
    pub fn outputs(self, which: u64) -> u8
        ensures { result ≡ outputs_of self.routes self.auto self.turn which }
    {
        let mut w = both(which, self.auto);
        let mut r = lanes::united(self.routes, without(which, self.auto));
        while w != 0 && r != 3 {
            let i = lanes::lowest(w) as u64;
            r |= shown(
                self.routes[i as usize],
                bits::test(self.auto, i),
                bits::test(self.turn, i),
            );
            w = lanes::clear_lowest(w);
        }
        r
    }

    // The turn bits after the requests went from before to after.
    pub fn turned(self, before: u64, after: u64) -> u64
        ensures { result ≡ turns_of self.routes self.auto self.turn before after }
    {
        let fallen = both(self.auto, without(before, after));
        moved_on(
            self.turn,
            lanes::gather(self.routes, fallen, 0),
            lanes::gather(self.routes, fallen, 1),
        )
    }
}
