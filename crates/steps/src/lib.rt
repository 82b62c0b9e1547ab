// The kinds of step, and what each does: decided from the step and the window switch alone.
#![tactic(auto)]

mod request;

ghost use Rattle.std.specs.Prelude.{◌≡◌};
ghost use Rattle.steps.specs.Decide.{access_plan, bridge_plan, decide_of, node_plan, planned, read_plan, window_plan, write_plan, written_plan};

use access::{Refusal, Transfer};
use admission::Admitted;
use bridge_registers::Chip;
use request::Request;
use tree::{Change, Read, Write};
use windows::{Address, Place};

// One case for each kind of step.
#[derive(Clone, Copy)]
pub enum Step {
    BusRead {
        address: u64,
        width: u64,
    },
    BusWrite {
        address: u64,
        width: u64,
        value: u64,
    },
    PrivateRead {
        core: u64,
        offset: u64,
        width: u64,
    },
    PrivateWrite {
        core: u64,
        offset: u64,
        width: u64,
        value: u64,
    },
    BridgeRead {
        register: bridge_registers::Register,
    },
    BridgeWrite {
        register: bridge_registers::Register,
        value: u64,
    },
    Input {
        source: u64,
        level: bool,
    },
    NodeInput {
        source: u64,
        level: bool,
    },
    Which {
        chip: Chip,
    },
    Window {
        open: bool,
    },
    Reset,
}

// What a step does, by the class of cells and by what the order rule says of it: of the accepted steps, it is about those that write
// a core or the tree. Where a case holds a small enum or a flag and a number, the small one stands first: so the cases lie alike in
// memory, and a plan stays in registers where they meet.
// A refusal is one case of eight and no Err: a refused step is answered, with its lines, as any other is (docs/DECISIONS.md, B63).
#[derive(Clone, Copy)]
pub enum Plan {
    Refuse(Refusal),
    ReadCore {
        register: ipi_registers::Register,
        core: u64,
        width: u64,
    },
    WriteCore {
        effect: ipi_registers::Effect,
        core: u64,
    },
    ReadTree(Read),
    WriteTree(Write),
    ChangeTree(Change),
    Window(bool),
    Reset,
}

// What an accepted read does.
#[tactic(auto, unfolding(crate::specs::Decide::read_plan))]
fn read_plan(place: Place, width: u64) -> Plan
    ensures { result ≡ read_plan place width }
{
    match place {
        Place::Message { register, core } => Plan::ReadCore {
            register,
            core,
            width,
        },
        Place::Node(register) => Plan::ReadTree(Read::Node(register)),
        Place::Gate => Plan::ReadTree(Read::Gate { high: false, width }),
        Place::GateHigh => Plan::ReadTree(Read::Gate { high: true, width }),
    }
}

// What an accepted write to a register of the node does.
// Not one generic function with written_plan below: over the two constructors of `tree` it needs four type parameters and two callbacks' clauses.
#[tactic(auto, unfolding(crate::specs::Decide::node_plan))]
fn node_plan(written: node_registers::Written) -> Plan
    ensures { result ≡ node_plan written }
{
    match written {
        node_registers::Written::Plain(effect) => Plan::WriteTree(Write::Node(effect)),
        node_registers::Written::Changed(change) => Plan::ChangeTree(Change::Node(change)),
    }
}

// What an accepted write does. It reaches the core `target`.
#[tactic(auto, unfolding(crate::specs::Decide::write_plan))]
fn write_plan(admitted: Admitted, width: u64, value: u64) -> Plan
    ensures { result ≡ write_plan admitted.place admitted.target width value }
{
    match admitted.place {
        Place::Message { register, core: _ } => Plan::WriteCore {
            effect: ipi_registers::write_effect(register, width, value),
            core: admitted.target,
        },
        Place::Node(register) => node_plan(node_registers::write(register, value)),
        Place::Gate => Plan::WriteTree(tree::gate_written(false, width, value)),
        Place::GateHigh => Plan::WriteTree(tree::gate_written(true, width, value)),
    }
}

#[tactic(auto, unfolding(crate::specs::Decide::access_plan))]
fn access_plan(admitted: Admitted, transfer: Transfer) -> Plan
    ensures { result ≡ access_plan admitted.place admitted.target transfer.width transfer.write transfer.value }
{
    if transfer.write {
        write_plan(admitted, transfer.width, transfer.value)
    } else {
        read_plan(admitted.place, transfer.width)
    }
}

// A bus or private access: its refusal, or what it does.
#[tactic(auto, unfolding(crate::specs::Decide::admitted_plan))]
fn window_plan(address: Address, opened: bool, transfer: Transfer) -> Plan
    ensures { result ≡ window_plan opened address transfer.width transfer.write transfer.value }
{
    match admission::admit(address, opened, transfer) {
        Ok(admitted) => access_plan(admitted, transfer),
        Err(refusal) => Plan::Refuse(refusal),
    }
}

// What an accepted write to a bridge register does.
#[tactic(auto, unfolding(crate::specs::Decide::written_plan))]
fn written_plan(written: bridge_registers::Written) -> Plan
    ensures { result ≡ written_plan written }
{
    match written {
        bridge_registers::Written::Plain(effect) => Plan::WriteTree(Write::Bridge(effect)),
        bridge_registers::Written::Changed(change) => Plan::ChangeTree(Change::Bridge(change)),
    }
}

#[tactic(auto, unfolding(crate::specs::Decide::bridge_plan))]
fn bridge_plan(register: bridge_registers::Register, write: bool, value: u64) -> Plan
    ensures { result ≡ bridge_plan register write value }
{
    match admission::bridge_verdict(register, write, value) {
        Ok(()) if write => written_plan(bridge_registers::write(register, value)),
        Ok(()) => Plan::ReadTree(Read::Bridge(register)),
        Err(refusal) => Plan::Refuse(refusal),
    }
}

// The refusal, or the change where there is none.
fn change_plan(verdict: Result<(), Refusal>, change: Change) -> Plan
    ensures { result ≡ planned verdict (Plan.ChangeTree change) }
{
    match verdict {
        Ok(()) => Plan::ChangeTree(change),
        Err(refusal) => Plan::Refuse(refusal),
    }
}

// The first refusal that applies, or what the step does.
#[tactic(auto, unfolding(crate::specs::Private::request_plan, crate::specs::Decide::input_plan, crate::specs::Decide::node_input_plan))]
pub fn decide(step: Step, second_open: bool) -> Plan
    ensures { result ≡ decide_of second_open step }
{
    match request::requested(step) {
        Request::Access(address, transfer) => window_plan(address, second_open, transfer),
        Request::Bridge {
            register,
            write,
            value,
        } => bridge_plan(register, write, value),
        Request::Input { source, level } => change_plan(
            admission::input_verdict(source),
            Change::Input { level, source },
        ),
        Request::NodeInput { source, level } => change_plan(
            admission::node_input_verdict(source),
            Change::NodeInput { level, source },
        ),
        Request::Which(chip) => Plan::ReadTree(Read::Which(chip)),
        Request::Window(open) => Plan::Window(open),
        Request::Reset => Plan::Reset,
    }
}
