// The interrupt tree from the sources to the cores' pins: the bridge, the gate behind it, and the node. A block that joins the tree adds a
// field, and a case to each of `Read`, `Write` and `Change`.
#![tactic(auto)]

ghost use Rattle.std.specs.Prelude.{◌≡◌};
ghost use Rattle.node.specs.Sources as nodes;
ghost use Rattle.tree.specs.Moved.{with_moved};
ghost use Rattle.tree.specs.Tree.{acted_of, applied_of, fresh_of, gate_read, gate_weight, gate_written, lines_of, moved_of, read_of, reset_of, unsettled_of, with_bridge, with_gate, with_levels, with_node};
ghost use Rattle.tree.specs.Private.{watched_before, watched_of, watched_settled};

use answers::Outcome;
use bits::After;
use bridge::Bridge;
use bridge_registers::Chip;
use node::Node;

#[derive(Clone, Copy)]
pub struct Tree {
    pub bridge: Bridge,
    pub gate: bool,
    pub node: Node,
}

// What is read: a register of the bridge or of the node, the gate in its word or in the high half of that, or which source of the bridge it is.
#[derive(Clone, Copy)]
pub enum Read {
    Bridge(bridge_registers::Register),
    Gate { high: bool, width: u64 },
    Node(node_registers::Register),
    Which(Chip),
}

// What a plain write does: bits of a cell of the bridge or of the node take values, or the gate does, which is a cell of one bit.
#[derive(Clone, Copy)]
pub enum Write {
    Bridge(bridge_registers::Effect),
    Gate { mask: bool, bit: bool },
    Node(node_registers::Effect),
}

// What any other accepted step does.
#[derive(Clone, Copy)]
pub enum Change {
    Bridge(bridge_registers::Change),
    Input { level: bool, source: u64 },
    Node(node_registers::Change),
    NodeInput { level: bool, source: u64 },
}

// What a step does to the tree.
#[derive(Clone, Copy)]
pub enum Act {
    Write(Write),
    Change(Change),
}

// What settling needs of the tree before an act.
#[derive(Clone, Copy)]
pub struct Before {
    pub node: node::Before,
}

// The gate shown as the bit that `weight` has.
fn gate_read(gate: bool, weight: u64) -> u64
    ensures { result ≡ gate_read gate weight }
{
    if gate { weight } else { 0 }
}

// Bit 16 of the high half, bit 48 of the word, and no bit of the low half.
// high beside the width: `gate_weight` and `gate_written` have both, and the small one stands first (docs/SPEED.md).
fn gate_weight(high: bool, width: u64) -> u64
    ensures { result ≡ gate_weight high width }
{
    if high {
        return 0x1_0000;
    }
    if width == 8 { 0x1_0000_0000_0000 } else { 0 }
}

// What a write to the gate's word, or to the high half of it, does.
#[tactic(auto, unfolding(crate::specs::Tree::gate_written))]
pub fn gate_written(high: bool, width: u64, value: u64) -> Write
    ensures { result ≡ gate_written high width value }
{
    if high {
        return Write::Gate {
            mask: true,
            bit: bits::test(value, 16),
        };
    }
    Write::Gate {
        mask: width == 8,
        bit: bits::test(value, 48),
    }
}

impl Tree {
    // The masks and the input levels as given, and everything else 0.
    #[tactic(auto, unfolding(crate::specs::Tree::with_levels))]
    fn with_levels(mask: u64, level: u64, node_level: u32) -> Tree
        ensures { result ≡ with_levels mask level node_level }
    {
        Tree {
            bridge: Bridge {
                mask,
                msi: 0,
                edge: 0,
                latch: 0,
                soft: 0,
                level,
                auto: 0,
                turn: 0,
                routes: [0; 64],
            },
            gate: false,
            node: Node {
                enable: 0,
                edge: 0,
                latch: 0,
                level: node_level,
                routes: [0; 32],
            },
        }
    }

    #[tactic(auto, unfolding(crate::specs::Tree::fresh_of))]
    pub fn fresh(mask: u64) -> Tree
        ensures { result ≡ fresh_of mask }
    {
        Tree::with_levels(mask, 0, 0)
    }

    // The reset values; the input levels stay.
    #[tactic(auto, unfolding(crate::specs::Tree::reset_of))]
    pub fn reset(self, mask: u64) -> Tree
        ensures { result ≡ reset_of mask self }
    {
        Tree::with_levels(mask, self.bridge.level, self.node.level)
    }

    // The value that is read, or the refusal of a search that finds none; in a search the gate plays no part.
    #[tactic(auto, unfolding(crate::specs::Tree::read_of))]
    pub fn read(self, read: Read) -> Outcome
        ensures { result ≡ read_of self read }
    {
        match read {
            Read::Bridge(register) => Ok(self.bridge.read(register)),
            Read::Gate { high, width } => Ok(gate_read(self.gate, gate_weight(high, width))),
            Read::Node(register) => Ok(self.node.read(self.lines(), register)),
            Read::Which(chip) => self.bridge.which(chip),
        }
    }

    // Setters, and no struct update (`Tree { bridge, ..self }`): that copies the tree once more at every step, 26 to 34 instructions (docs/SPEED.md).
    fn with_bridge(mut self, bridge: Bridge) -> Tree
        ensures { result ≡ with_bridge self bridge }
    {
        self.bridge = bridge;
        self
    }

    fn with_gate(mut self, gate: bool) -> Tree
        ensures { result ≡ with_gate self gate }
    {
        self.gate = gate;
        self
    }

    fn with_node(mut self, node: Node) -> Tree
        ensures { result ≡ with_node self node }
    {
        self.node = node;
        self
    }

    fn with(self, moved: u64) -> After<Tree>
        ensures { result ≡ record { state = self; moved = moved } }
    {
        After { state: self, moved }
    }

    fn bridge_acted(self, after: After<Bridge>) -> After<Tree>
        ensures { result ≡ record { state = with_bridge self after.state; moved = after.moved } }
    {
        self.with_bridge(after.state).with(after.moved)
    }

    fn node_acted(self, after: After<Node>) -> After<Tree>
        ensures { result ≡ record { state = with_node self after.state; moved = after.moved } }
    {
        self.with_node(after.state).with(after.moved)
    }

    // The gate is bit 48, by whichever offset it was written.
    #[tactic(auto, using(crate::proofs::Moved::gate_shifted), unfolding(crate::specs::Tree::applied_of, crate::specs::Moved::cell_of))]
    fn gate_acted(self, mask: bool, bit: bool) -> After<Tree>
        ensures { result ≡ with_moved self (applied_of self (Write.Gate mask bit)) (Act.Write (Write.Gate mask bit)) }
    {
        let new = bits::merge1(self.gate, mask, bit);
        self.with_gate(new.state).with(new.moved << 48)
    }

    // What a plain write itself moves.
    #[tactic(auto, unfolding(crate::specs::Tree::applied_of, crate::specs::Moved::cell_of))]
    fn applied(self, write: Write) -> After<Tree>
        ensures { result ≡ with_moved self (applied_of self write) (Act.Write write) }
    {
        match write {
            Write::Bridge(effect) => self.bridge_acted(self.bridge.applied(effect)),
            Write::Gate { mask, bit } => self.gate_acted(mask, bit),
            Write::Node(effect) => self.node_acted(self.node.applied(effect)),
        }
    }

    // What any other change itself moves; the bridge's own cells have settled. An input change is no write: it has no word.
    #[tactic(auto, unfolding(crate::specs::Tree::moved_of, crate::specs::Moved::cell_of))]
    fn moved(self, change: Change) -> After<Tree>
        ensures { result ≡ with_moved self (moved_of self change) (Act.Change change) }
    {
        match change {
            Change::Bridge(change) => self.bridge_acted(self.bridge.changed(change)),
            Change::Input { level, source } => After {
                state: self.with_bridge(self.bridge.input(source, level)),
                moved: 0,
            },
            Change::Node(change) => self.node_acted(self.node.moved(change)),
            Change::NodeInput { level, source } => After {
                state: self.with_node(self.node.levelled(source, level)),
                moved: 0,
            },
        }
    }

    // The tree after an act, before it settles.
    #[tactic(auto, unfolding(crate::specs::Tree::unsettled_of))]
    fn unsettled(self, act: Act) -> After<Tree>
        ensures { result ≡ with_moved self (unsettled_of self act) act }
    {
        match act {
            Act::Write(write) => self.applied(write),
            Act::Change(change) => self.moved(change),
        }
    }

    // The bridge's lines at the node, behind the gate: line k as bit k.
    #[tactic(auto, using(crate::proofs::Lines::lines_open, crate::proofs::Lines::lines_closed))]
    pub fn lines(self) -> u8
        ensures { result ≡ lines_of self }
    {
        if self.gate { self.bridge.lines() } else { 0 }
    }

    // The lines to the pins, where the bridge's lines are `lines`: core c and pin p as bit 4 * c + p.
    pub fn pins(self, lines: u8) -> u8
        ensures { result ≡ nodes.pins_of self.node lines }
    {
        self.node.pins(lines)
    }

    // The bridge's lines, looked at only where a rise of one could be latched.
    fn watched(self, edge: u32) -> u8
        ensures { result ≡ watched_of self edge }
    {
        if edge % 4 == 0 { 0 } else { self.lines() }
    }

    // What settling needs of the tree before an act.
    fn before(self) -> Before
        ensures { result ≡ watched_before self }
    {
        Before {
            node: self.node.before(self.watched(self.node.edge)),
        }
    }

    // What follows from an act. A change of the choices moves no line, so that those from before the act say whether the lines are looked at.
    fn settled(self, before: Before) -> Tree
        ensures { result ≡ watched_settled before self }
    {
        let lines = self.watched(before.node.edge);
        self.with_node(self.node.settled(before.node, lines))
    }

    // The tree after an act and what follows from it, and the bits of the cell that then differ: what follows moves none of them.
    #[tactic(auto, using(crate::proofs::Moved::acted_cell, crate::proofs::Settle::acted_by))]
    pub fn acted(self, act: Act) -> After<Tree>
        ensures { result ≡ with_moved self (acted_of self act) act }
    {
        let After { state, moved } = self.unsettled(act);
        state.settled(self.before()).with(moved)
    }
}
