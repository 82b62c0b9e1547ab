// The order rule of the device: the cells that plain writes reach, what a write gives them, which writes the rule covers, and that the rule
// holds of every device.
#![tactic(auto)]

ghost use Rattle.std.specs.Prelude.{◌≡◌, length};
ghost use Rattle.reorder.specs.Private.{Whole};
ghost use Rattle.reorder.specs.Rule.{Ordered, view_of};
ghost use Rattle.reorder.specs.Writes as writes;

use device::Device;
use steps::{Plan, Step};
use tree::Write;

// A cell that plain writes reach.
#[derive(Clone, Copy)]
pub enum Cell {
    Core0(ipi_registers::Cell),
    Core1(ipi_registers::Cell),
    Bridge(bridge_registers::Cell),
    Gate,
    Node(node_registers::Cell),
}

// Some bits of a cell take given values.
pub type Effect = access::Effect<Cell>;

// What a step gives, if the order rule covers it: a refused write and one that the gate's mask leaves out give nothing. Three cases of its own: an
// Option of an Option of an Effect would name neither of the first two.
#[derive(Clone, Copy)]
pub enum Given {
    NotListed,
    Nothing,
    Bits(Effect),
}

// ---- the rule holds of every device

// An array has the length of its type.
fn sized<T: Copy, const N: usize>(_words: [T; N])
    ensures { length _words ≡ N }
{}

// Every value of the type has arrays of their lengths, which is all that the rule asks of a device.
fn whole(d: Device)
    ensures { Whole d }
{
    sized(d.core0.mail);
    sized(d.core1.mail);
    sized(d.tree.bridge.routes);
    sized(d.tree.node.routes);
}

// What the order rule compares of a device; and the promise is the order rule itself, of every device that there is.
#[tactic(auto, using(crate::proofs::Rule::ordered), unfolding(crate::specs::Rule::view_of))]
pub fn compared(mut d: Device) -> Device
    ensures { (result ≡ view_of d) × Ordered d }
{
    whole(d);
    d.tree.node.latch = 0;
    d
}

// ---- what a write gives

#[tactic(auto, unfolding(crate::specs::Writes::given_of))]
fn core_given(effect: ipi_registers::Effect, core: u64) -> Given
    ensures { result ≡ writes.given_of (Plan.WriteCore effect core) }
{
    let cell = if core == 0 {
        Cell::Core0(effect.cell)
    } else {
        Cell::Core1(effect.cell)
    };
    Given::Bits(Effect::new(cell, effect.mask, effect.bits))
}

#[tactic(auto, unfolding(crate::specs::Writes::tree_given))]
fn tree_given(write: Write) -> Given
    ensures { result ≡ writes.tree_given write }
{
    match write {
        Write::Bridge(effect) => Given::Bits(Effect::new(
            Cell::Bridge(effect.cell),
            effect.mask,
            effect.bits,
        )),
        Write::Gate {
            mask: false,
            bit: _,
        } => Given::Nothing,
        Write::Gate { mask: true, bit } => Given::Bits(Effect::new(Cell::Gate, 1, bit as u64)),
        Write::Node(effect) => Given::Bits(Effect::new(
            Cell::Node(effect.cell),
            effect.mask,
            effect.bits,
        )),
    }
}

#[tactic(auto, unfolding(crate::specs::Writes::given_of))]
fn plan_given(plan: Plan) -> Given
    ensures { result ≡ writes.given_of plan }
{
    match plan {
        Plan::Refuse(_) => Given::Nothing,
        Plan::WriteCore { effect, core } => core_given(effect, core),
        Plan::WriteTree(write) => tree_given(write),
        Plan::ReadCore { .. }
        | Plan::ReadTree(_)
        | Plan::ChangeTree(_)
        | Plan::Window(_)
        | Plan::Reset => Given::NotListed,
    }
}

// What a step gives, from the window switch and the step alone.
#[tactic(auto, unfolding(crate::specs::Writes::given_in))]
pub fn bits_given(second_open: bool, step: Step) -> Given
    ensures { result ≡ writes.given_in second_open step }
{
    plan_given(steps::decide(step, second_open))
}

// ---- which writes the rule covers

fn is_write(step: Step) -> bool
    ensures { result ≡ writes.is_write step }
{
    matches!(
        step,
        Step::BusWrite { .. } | Step::PrivateWrite { .. } | Step::BridgeWrite { .. }
    )
}

fn given_listed(given: Given) -> bool
    ensures { result ≡ writes.listed given }
{
    !matches!(given, Given::NotListed)
}

// A write that may stand in a list of the order rule, refused ones included.
#[tactic(auto, unfolding(crate::specs::Writes::listed_in))]
pub fn listed(second_open: bool, step: Step) -> bool
    ensures { result ≡ writes.listed_in second_open step }
{
    is_write(step) && given_listed(bits_given(second_open, step))
}
