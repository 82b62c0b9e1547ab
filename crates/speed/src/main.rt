// Runs many steps of a mix on one device and prints a checksum of every answer and of the end state: `speed N` every mix, `speed N MIX` one.
// bench/baseline.c does the same in plain C, and bench/run compares their checksums and times.
#![tactic(auto)]

mod mix;

use answers::Answer;
use bridge::Bridge;
use cores::Core;
use device::Device;
use mix::{MIXES, Mix, Row};
use node::Node;
use numbered::Kind;
use std::io;
use std::rt::Env;
use steps::Step;

// The next draw of the xorshift.
fn drawn(x: u64) -> u64 {
    let a = x ^ (x << 13);
    let b = a ^ (a >> 7);
    b ^ (b << 17)
}

// The step of a row (see mix.rt) at a draw. No row of the mixes is unknown.
fn row_step(row: Row, x: u64) -> Step {
    let [kind, unit, place, spread, width, mask, bits] = row;
    let place = place | ((x >> 32) & spread);
    let value = ((x ^ (x << 32)) & mask) | bits;
    match Kind::try_from(kind) {
        Ok(Kind::Window | Kind::Reset) if value != 0 => Step::Window { open: true },
        Ok(kind) => kind.step(unit, place, width, value).unwrap_or(Step::Reset),
        Err(_) => Step::Reset,
    }
}

// The checksum with an answer: the value or the refusal number, the twelve lines, and the bits that were moved.
fn answer_folded(sum: u64, a: Answer) -> u64 {
    let word = match a.outcome {
        Ok(value) => value,
        Err(refusal) => u64::from(refusal) << 56,
    };
    sum.rotate_left(7) ^ word ^ (a.lines() << 52) ^ a.moved.rotate_left(29)
}

// The checksum with a word of the end state. Its many operations keep the compiler from unrolling the loop over the routes: unrolled, each
// of the 64 bytes is carried through the loop of the steps as a value of its own, which made a step half as long again.
fn folded(sum: u64, word: u64) -> u64 {
    drawn(sum ^ word)
}

fn core_folded(sum: u64, core: Core) -> u64 {
    let cells = folded(folded(sum, u64::from(core.status)), u64::from(core.enable));
    core.mail.iter().fold(cells, |s, &word| folded(s, word))
}

fn bridge_folded(sum: u64, bridge: Bridge) -> u64 {
    let enables = folded(folded(sum, bridge.mask), bridge.msi);
    let modes = folded(folded(enables, bridge.edge), bridge.latch);
    let drives = folded(folded(modes, bridge.soft), bridge.level);
    let turns = folded(folded(drives, bridge.auto), bridge.turn);
    bridge
        .routes
        .iter()
        .fold(turns, |s, &route| folded(s, u64::from(route)))
}

// As many turns as for the bridge's routes, lest this loop be unrolled.
fn node_folded(sum: u64, node: Node) -> u64 {
    let enables = folded(folded(sum, u64::from(node.enable)), u64::from(node.edge));
    let drives = folded(
        folded(enables, u64::from(node.latch)),
        u64::from(node.level),
    );
    (0..64).fold(drives, |s, i| {
        folded(folded(s, u64::from(node.routes[i % 32])), i as u64)
    })
}

fn device_folded(sum: u64, d: Device) -> u64 {
    let cores = core_folded(core_folded(sum, d.core0), d.core1);
    folded(
        node_folded(bridge_folded(cores, d.tree.bridge), d.tree.node),
        u64::from(d.tree.gate) | u64::from(d.second_open) << 1,
    )
}

// The checksum of n steps of a mix from a fresh device.
fn run(rows: &[Row; 64], n: u64) -> u64 {
    let mut d = Device::fresh();
    let mut x = mix::SEED;
    let mut sum = 0;
    for _ in 0..n {
        x = drawn(x);
        let stepped = d.step(row_step(rows[(x >> 58) as usize], x));
        sum = answer_folded(sum, stepped.answer);
        d = stepped.device;
    }
    device_folded(sum, d)
}

fn print_run(rt: &impl Print, mix: Mix, n: u64) -> io::Result<()> {
    let Mix { name, first, last } = mix;
    let mut rows = [[0; 7]; 64];
    rows[..32].copy_from_slice(first);
    rows[32..].copy_from_slice(last);
    println!(rt; "{name} {n} checksum {:#018x}", run(&rows, n))
}

// A number with one more decimal digit; a byte that is no digit, and one that could take it past a u64, is left out.
fn with_digit(n: u64, byte: u8) -> u64 {
    if n <= 1_000_000_000_000_000_000 && byte.is_ascii_digit() {
        n * 10 + u64::from(byte - b'0')
    } else {
        n
    }
}

fn number(text: &[u8]) -> u64 {
    text.iter().fold(0, |n, &byte| with_digit(n, byte))
}

// The first byte of the argument that names a mix, where there is one.
fn initial(rt: &impl Env) -> Option<u8> {
    let mut name = [0; 16];
    let n = rt.arg(2, &mut name).unwrap_or(0);
    name[..n].first().copied()
}

fn main(rt: HostRuntime) -> io::Result<()> {
    let mut digits = [0; 4096];
    let length = rt.arg(1, &mut digits).unwrap_or(0);
    let n = number(&digits[..length]);
    let only = initial(&rt);
    for mix in MIXES {
        if only.is_none() || only == mix.name.as_bytes().first().copied() {
            print_run(&rt, mix, n)?;
        }
    }
    Ok(())
}
