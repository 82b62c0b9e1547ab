// The device: two cores, the interrupt tree and the switch of the second window; one step at a time, by value.
#![tactic(auto)]

ghost use Rattle.std.specs.Prelude.{◌≡◌};
ghost use Rattle.device.specs.Device.{answered_of, fresh_of, reset_of, start_of};
ghost use Rattle.device.specs.Private.{class_next, class_of};
ghost use Rattle.device.specs.Step.{outcome_of, step_of};

use answers::{Answer, Outcome};
use bits::After;
use cores::Core;
use steps::{Plan, Step};
use tree::{Act, Tree};

#[derive(Clone, Copy)]
pub struct Device {
    pub core0: Core,
    pub core1: Core,
    pub tree: Tree,
    pub second_open: bool,
}

#[derive(Clone, Copy)]
pub struct Stepped {
    pub answer: Answer,
    pub device: Device,
}

// What a plan does to the device, by the part that it reaches. It serves speed: what follows from a change of the tree has one place in
// the code, and is not looked at in the other cases.
#[derive(Clone, Copy)]
enum Class {
    Keep,
    Cores {
        effect: ipi_registers::Effect,
        core: u64,
    },
    Tree(Act),
    Window(bool),
    Reset,
}

#[tactic(auto, unfolding(crate::specs::Private::class_of))]
fn class_of(plan: Plan) -> Class
    ensures { result ≡ class_of plan }
{
    match plan {
        Plan::Refuse(_) | Plan::ReadCore { .. } | Plan::ReadTree(_) => Class::Keep,
        Plan::WriteCore { effect, core } => Class::Cores { effect, core },
        Plan::WriteTree(write) => Class::Tree(Act::Write(write)),
        Plan::ChangeTree(change) => Class::Tree(Act::Change(change)),
        Plan::Window(open) => Class::Window(open),
        Plan::Reset => Class::Reset,
    }
}

impl Device {
    // The reset values that are named; all others are 0.
    pub const MASKS: u64 = 0xffff_ffff_ffff_ffff;

    pub const SECOND_OPEN: bool = false;

    pub fn fresh() -> Device
        ensures { result ≡ fresh_of }
    {
        Device::start(Tree::fresh(Device::MASKS), Device::SECOND_OPEN)
    }

    #[tactic(auto, unfolding(crate::specs::Device::reset_of))]
    fn reset(self) -> Device
        ensures { result ≡ reset_of self }
    {
        Device::start(self.tree.reset(Device::MASKS), Device::SECOND_OPEN)
    }

    // The cells of both cores as they start, beside a tree and the window switch.
    #[tactic(auto, unfolding(crate::specs::Device::start_of))]
    fn start(tree: Tree, opened: bool) -> Device
        ensures { result ≡ start_of tree opened }
    {
        let core = Core {
            status: 0,
            enable: 0,
            mail: [0; 4],
        };
        Device {
            core0: core,
            core1: core,
            tree,
            second_open: opened,
        }
    }

    // Both cores are read and one is chosen: the compiler makes no jump of that.
    #[tactic(auto, using(crate::proofs::Cores::read_chosen), unfolding(crate::specs::Step::outcome_of))]
    fn outcome(self, plan: Plan) -> Outcome
        ensures { result ≡ outcome_of self plan }
    {
        match plan {
            Plan::Refuse(refusal) => Err(refusal),
            Plan::ReadCore {
                register,
                core,
                width,
            } => {
                let word0 = self.core0.read(register, width);
                let word1 = self.core1.read(register, width);
                Ok(bits::choose(core == 0, word0, word1))
            }
            Plan::ReadTree(read) => self.tree.read(read),
            Plan::WriteCore { .. }
            | Plan::WriteTree(_)
            | Plan::ChangeTree(_)
            | Plan::Window(_)
            | Plan::Reset => Ok(0),
        }
    }

    // Both cores take the effect, and it moves bits of one alone.
    #[tactic(auto, using(crate::proofs::Cores::applied_chosen))]
    fn cores_applied(self, effect: ipi_registers::Effect, core: u64) -> After<Device>
        ensures { result ≡ class_next self (Class.Cores effect core) }
    {
        let core0 = self.core0.applied(core == 0, effect);
        let core1 = self.core1.applied(core != 0, effect);
        let mut state = self;
        state.core0 = core0.state;
        state.core1 = core1.state;
        After {
            state,
            moved: core0.moved | core1.moved,
        }
    }

    // One field of a copy is written, and no struct update: see `with_bridge` in crates/tree.
    #[tactic(auto, unfolding(crate::specs::Private::class_next))]
    fn tree_acted(self, act: Act) -> After<Device>
        ensures { result ≡ class_next self (Class.Tree act) }
    {
        let tree = self.tree.acted(act);
        let mut state = self;
        state.tree = tree.state;
        After {
            state,
            moved: tree.moved,
        }
    }

    #[tactic(auto, unfolding(crate::specs::Private::class_next))]
    fn next(self, class: Class) -> After<Device>
        ensures { result ≡ class_next self class }
    {
        match class {
            Class::Keep => After {
                state: self,
                moved: 0,
            },
            Class::Cores { effect, core } => self.cores_applied(effect, core),
            Class::Tree(act) => self.tree_acted(act),
            Class::Window(open) => {
                let mut state = self;
                state.second_open = open;
                After { state, moved: 0 }
            }
            Class::Reset => After {
                state: self.reset(),
                moved: 0,
            },
        }
    }

    // The outcome and the bits that were moved beside the lines.
    pub fn answered(self, outcome: Outcome, moved: u64) -> Stepped
        ensures { result ≡ answered_of self outcome moved }
    {
        let lines = self.tree.lines();
        Stepped {
            answer: Answer {
                outcome,
                moved,
                ipi0: self.core0.line(),
                ipi1: self.core1.line(),
                bridge0: bits::test(u64::from(lines), 0),
                bridge1: bits::test(u64::from(lines), 1),
                pins: self.tree.pins(lines),
            },
            device: self,
        }
    }

    // One step, answered whatever it is.
    #[tactic(auto, using(crate::proofs::Classes::class_next_lem), unfolding(crate::specs::Step::step_of))]
    pub fn step(self, step: Step) -> Stepped
        ensures { result ≡ step_of self step }
    {
        let plan = steps::decide(step, self.second_open);
        let outcome = self.outcome(plan);
        let After { state, moved } = self.next(class_of(plan));
        state.answered(outcome, moved)
    }
}
