// The input that a reference names.
#![tactic(auto)]

ghost use Rattle.std.specs.Prelude.{◌≡◌, ◌==◌, get_or, drop, position};
ghost use Rattle.capture_names.specs.Names.{name_of, input_of};

// The first byte; 0, which is no mark, where there is none: an Option would be unwrapped so at each test.
pub fn first(t: &[u8]) -> u8
    ensures { result ≡ get_or t.now 0 0 }
{
    t.first().copied().unwrap_or(0)
}

// A text without its first byte.
pub fn behind(t: &[u8]) -> &[u8]
    ensures { result.now ≡ drop 1 t.now }
{
    text::rest(t, 1)
}

// The place of the first `[`.
fn bracket(t: &[u8]) -> Option<usize>
    ensures { result ≡ position (λ c. c == 91) t.now }
{
    t.iter().position(|&c| c == b'[')
}

// The name of a reference.
fn name(t: &[u8]) -> &[u8]
    ensures { result.now ≡ name_of t.now }
{
    if first(t) == b'\\' {
        return behind(t);
    }
    &t[..bracket(t).unwrap_or(t.len())]
}

// The input that a reference's first token names.
#[tactic(auto, unfolding(crate::specs::Names::input_of))]
pub fn input_of(t: &[u8]) -> Option<u64>
    ensures { result ≡ input_of t.now }
{
    let n = capture_tokens::index_of(
        b"in0 in1 in2 in3 in4 in5 in6 in7 in8 in9 in10 in11 in12 in13 in14 in15 in16 in17 in18 in19 in20 in21 in22 in23 in24 in25 in26 in27 in28 in29 in30 in31 in32 in33 in34 in35 in36 in37 in38 in39 in40 in41 in42 in43 in44 in45 in46 in47 in48 in49 in50 in51 in52 in53 in54 in55 in56 in57 in58 in59 in60 in61 in62 in63",
        name(t),
    )?;
    Some(n as u64)
}
