// Which steps are refused: of each kind the first refusal that applies, or what is reached.
#![tactic(auto)]

ghost use Rattle.std.specs.Prelude.{◌≡◌, not, ◌&&◌};
ghost use Rattle.access.specs.Refusal.{first_of};
ghost use Rattle.admission.specs.Refusals.{admission_of, bridge_refusals, input_refusals, node_input_refusals, target_at};
ghost use Rattle.admission.specs.Private.{admitted_at, issued_past, sent_past};
ghost use Rattle.windows.specs.Table.{in_second};

use access::{Refusal, Transfer};
use bridge_registers::Row;
use windows::{Address, Located, Place, Window};

// The place that an access names, and the core that a write there reaches.
#[derive(Clone, Copy)]
pub struct Admitted {
    pub place: Place,
    pub target: u64,
}

// A private access of a core above 1; the bus has no core.
fn issued_past(window: Window) -> bool
    ensures { result ≡ issued_past window }
{
    matches!(window, Window::Private(core) if 1 < core)
}

fn closed(window: Window, opened: bool) -> bool
    ensures { result ≡ (in_second window && not opened) }
{
    windows::is_second(window) && !opened
}

// The core that a write reaches: of a send, its target.
// 0 where the place has no core: an Option would be unwrapped where a core's write is planned, which knows of the place that there is one.
#[tactic(auto, unfolding(crate::specs::Refusals::target_at))]
fn target(place: Place, value: u64) -> u64
    ensures { result ≡ target_at place value }
{
    match place {
        Place::Message { register, core } => ipi_registers::target(register, core, value),
        Place::Node(_) | Place::Gate | Place::GateHigh => 0,
    }
}

// A send in a private window to a core above 1; no window of the bus has a send.
fn sent_past(window: Window, target: u64) -> bool
    ensures { result ≡ sent_past window target }
{
    matches!(window, Window::Private(_)) && 1 < target
}

// An access that names a place: of the refusals 3, 4, 5, 6 and 1 the first that applies, or the place and the target.
#[tactic(auto, unfolding(crate::specs::Private::admitted_at))]
fn admit_at(
    window: Window,
    located: Located,
    opened: bool,
    transfer: Transfer,
) -> Result<Admitted, Refusal>
    ensures { result ≡ admitted_at window located opened transfer.width transfer.write transfer.value }
{
    let Located { place, access } = located;
    if closed(window, opened) {
        return Err(Refusal::Window);
    }
    access::judge(access, transfer)?;
    let target = target(place, transfer.value);
    if sent_past(window, target) {
        return Err(Refusal::Core);
    }
    Ok(Admitted { place, target })
}

// Bus and private accesses. Bus: the first refusal that applies, of 2, 3, 4, 5 and 6. Private: 1 for the issuing core, then 2, 4, 5, 6, then
// 1 for the target.
#[tactic(auto, using(crate::proofs::Verdicts::admission_at, crate::proofs::Verdicts::admission_core, crate::proofs::Verdicts::admission_nowhere))]
pub fn admit(address: Address, opened: bool, transfer: Transfer) -> Result<Admitted, Refusal>
    ensures { result ≡ admission_of address opened transfer.width transfer.write transfer.value }
{
    let window = address.window;
    if issued_past(window) {
        return Err(Refusal::Core);
    }
    let located = windows::locate(address).ok_or(Refusal::Register)?;
    admit_at(window, located, opened, transfer)
}

// Bridge: the first refusal that applies, of 7, 5, 6 and 8.
#[tactic(auto, unfolding(crate::specs::Refusals::bridge_refusals, crate::specs::Refusals::input_refusals))]
pub fn bridge_verdict(
    register: bridge_registers::Register,
    write: bool,
    value: u64,
) -> Result<(), Refusal>
    ensures { result ≡ first_of (bridge_refusals register write value) }
{
    let Row {
        source,
        rights,
        holds,
    } = bridge_registers::row_of(register);
    if let Some(source) = source {
        input_verdict(source)?;
    }
    if !access::permits(rights, write) {
        return Err(Refusal::Right);
    }
    if !bridge_registers::fits(holds, value) {
        return Err(Refusal::Value);
    }
    if !bridge_registers::held(holds, value) {
        return Err(Refusal::Distribution);
    }
    Ok(())
}

// Input change: 7.
#[tactic(auto, unfolding(crate::specs::Refusals::input_refusals))]
pub fn input_verdict(source: u64) -> Result<(), Refusal>
    ensures { result ≡ first_of (input_refusals source) }
{
    if 63 < source {
        return Err(Refusal::Source);
    }
    Ok(())
}

// Node input change: 7.
// Not one function of a range with the one above: it is no shorter, and each has its own list of refusals in specs/Refusals.antt.
#[tactic(auto, unfolding(crate::specs::Refusals::node_input_refusals))]
pub fn node_input_verdict(source: u64) -> Result<(), Refusal>
    ensures { result ≡ first_of (node_input_refusals source) }
{
    match source {
        2..=31 => Ok(()),
        _ => Err(Refusal::Source),
    }
}
