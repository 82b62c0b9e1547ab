// The forms of a token, read byte by byte: ids, vectors, real numbers and references are paths of one small automaton.
#![tactic(auto)]

ghost use Rattle.std.specs.Prelude.{◌≡◌, drop};
ghost use Rattle.capture_forms.specs.Forms.{class_of, next_of, scan_of, id_form, vector_form, real_form, reference_form};

// The first state of each form. A state is the number of its row in STEPS, which is read at each byte: an enum of the 25 would be cast there and back.
pub const ID: u8 = 1;

pub const VECTOR: u8 = 3;

pub const REAL: u8 = 5;

pub const REFERENCE: u8 = 13;

// In both tables a letter stands for a number: `@` for 0, `A` for 1 and so on.

// The class of a byte below 128.
// As letters: docs/DECISIONS.md (B38) names both tables; a match on 25 states and 17 classes is the other form.
const CLASSES: [u8; 128] = *b"@@@@@@@@@@@@@@@@@@@@@@@@@@@@@@@@\
    APPPHPPPPPPJPIKPBCDDDDDDDDNPPPPP\
    PGGGGFGGGGGGGGGGGGGGGGGGEGELOMPG\
    PGGGGFGGGGGGGGGGGGGGGGGGEGEPPPP@";

fn class(c: u8) -> u8
    ensures { result ≡ class_of c }
{
    if 127 < c {
        return 0;
    }
    CLASSES[c as usize] - 64
}

// The state after a class: a row of 17 classes for each of 25 states.
const STEPS: [u8; 425] = *b"@@@@@@@@@@@@@@@@@\
    @@BBBBBBBBBBBBBBB\
    @@BBBBBBBBBBBBBBB\
    @@DD@D@@@@@@@@@@@\
    @@DD@D@@@@@@@@@@@\
    @@GGG@@@@F@@@@@@@\
    @@GGG@@@@@@@@@@@@\
    @@GGG@J@@@@H@@@@@\
    @@III@@@@@@@@@@@@\
    @@III@J@@@@@@@@@@\
    @@LLL@@@@KK@@@@@@\
    @@LLL@@@@@@@@@@@@\
    @@LLL@@@@@@@@@@@@\
    @@@@@NNN@@@@@@@O@\
    @QNNNNNNN@@@R@@@@\
    @@PPPPPPPPPPPPPPP\
    @QPPPPPPPPPPPPPPP\
    @@@@@@@@@@@@R@@@@\
    @RSSS@@@@@@@@@@@@\
    @TSSS@@@@@@@@XU@@\
    @@@@@@@@@@@@@XU@@\
    @UVVV@@@@@@@@@@@@\
    @WVVV@@@@@@@@X@@@\
    @@@@@@@@@@@@@X@@@\
    @X@@@@@@@@@@@@@@@";

// The state after a byte.
pub fn next(state: u8, c: u8) -> u8
    ensures { result ≡ next_of state c }
{
    if 24 < state {
        return 0;
    }
    STEPS[state as usize * 17 + class(c) as usize] - 64
}

// The state after what a text has from a place on.
pub fn scan(t: &[u8], from: usize, state: u8) -> u8
    ensures { result ≡ scan_of state (drop from t.now) }
{
    let mut at = state;
    let left = text::rest(t, from);
    for &c in left {
        at = next(at, c);
    }
    at
}

// Whether a state is one at which an id may end.
pub fn id_form(state: u8) -> bool
    ensures { result ≡ id_form state }
{
    state == 2
}

// A vector.
pub fn vector_form(state: u8) -> bool
    ensures { result ≡ vector_form state }
{
    state == 4
}

// A real number.
pub fn real_form(state: u8) -> bool
    ensures { result ≡ real_form state }
{
    matches!(state, 7 | 9 | 12)
}

// A reference.
pub fn reference_form(state: u8) -> bool
    ensures { result ≡ reference_form state }
{
    matches!(state, 17 | 24)
}
