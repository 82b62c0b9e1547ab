// The forms of a line: those of a step, those of the other lines, and those that are open, of lines whose first words begin no one form.
use script::Form as StepForm;
use std::fmt;

#[derive(Clone, Copy, PartialEq, Eq)]
pub(crate) enum Form {
    Step(StepForm),
    Replay,
    ExpectValue,
    ExpectRefused,
    ExpectLines,
    ExpectMoved,
    ReorderBegin,
    ReorderEnd,
    AnyForm,
    AnyBus,
    AnyCore,
    AnyBridge,
    AnyRegister,
    AnyNode,
    AnyWindow,
    AnyReorder,
}

// The registers of the bridge by their numbers, but for ROUTE_ENTRY, the only one with a source.
const REGISTERS: [&str; 10] = [
    "INT_MASK",
    "MSI_EN",
    "INTEDGE",
    "SOFT_INT",
    "AUTO_CTRL0",
    "AUTO_CTRL1",
    "INTCLR",
    "INTISR_CHIP0",
    "INTISR_CHIP1",
    "INTIRR",
];

// The number of a register of the bridge that has no source.
pub(crate) fn register_named(name: &str) -> Option<usize> {
    REGISTERS.iter().position(|register| *register == name)
}

// The form of a bridge access: of a register that has a source, of one that has none, or of one that is not known.
fn bridge_form(name: Option<&&str>, plain: StepForm, source: StepForm) -> Form {
    match name {
        Some(&"ROUTE_ENTRY") => Form::Step(source),
        Some(name) if register_named(name).is_some() => Form::Step(plain),
        _ => Form::AnyRegister,
    }
}

impl Form {
    // The form that a line begins with its first words.
    pub(crate) fn of(words: &[&str]) -> Form {
        match words {
            ["bus", "read", ..] => Form::Step(StepForm::BusRead),
            ["bus", "write", ..] => Form::Step(StepForm::BusWrite),
            ["bus", ..] => Form::AnyBus,
            ["core", _, "read", ..] => Form::Step(StepForm::PrivateRead),
            ["core", _, "write", ..] => Form::Step(StepForm::PrivateWrite),
            ["core", ..] => Form::AnyCore,
            ["bridge", "read", rest @ ..] => {
                bridge_form(rest.first(), StepForm::BridgeRead, StepForm::SourceRead)
            }
            ["bridge", "write", rest @ ..] => {
                bridge_form(rest.first(), StepForm::BridgeWrite, StepForm::SourceWrite)
            }
            ["bridge", ..] => Form::AnyBridge,
            ["input", ..] => Form::Step(StepForm::Input),
            ["node", "input", ..] => Form::Step(StepForm::NodeInput),
            ["node", ..] => Form::AnyNode,
            ["which", ..] => Form::Step(StepForm::Which),
            ["window", "open", ..] => Form::Step(StepForm::WindowOpen),
            ["window", "closed", ..] => Form::Step(StepForm::WindowClosed),
            ["window", ..] => Form::AnyWindow,
            ["reset", ..] => Form::Step(StepForm::Reset),
            ["replay", ..] => Form::Replay,
            ["expect", "refused", ..] => Form::ExpectRefused,
            ["expect", "lines", ..] => Form::ExpectLines,
            ["expect", "moved", ..] => Form::ExpectMoved,
            ["expect", ..] => Form::ExpectValue,
            ["reorder", "begin", ..] => Form::ReorderBegin,
            ["reorder", "end", ..] => Form::ReorderEnd,
            ["reorder", ..] => Form::AnyReorder,
            _ => Form::AnyForm,
        }
    }

    // How many words a line of the form has; of a form that is open those that are known, and it has one more.
    pub(crate) fn words(self) -> usize {
        match self {
            Form::Step(form) => step_words(form),
            Form::Replay | Form::ExpectRefused | Form::ExpectLines | Form::ExpectMoved => 3,
            Form::ExpectValue | Form::ReorderBegin | Form::ReorderEnd => 2,
            Form::AnyForm => 0,
            Form::AnyBus | Form::AnyBridge | Form::AnyNode | Form::AnyWindow | Form::AnyReorder => {
                1
            }
            Form::AnyCore | Form::AnyRegister => 2,
        }
    }
}

// How many words a step's line of a form has.
fn step_words(form: StepForm) -> usize {
    match form {
        StepForm::Reset => 1,
        StepForm::WindowOpen | StepForm::WindowClosed | StepForm::Which => 2,
        StepForm::BridgeRead | StepForm::Input => 3,
        StepForm::BusRead | StepForm::BridgeWrite | StepForm::NodeInput | StepForm::SourceRead => 4,
        StepForm::BusWrite | StepForm::PrivateRead | StepForm::SourceWrite => 5,
        StepForm::PrivateWrite => 6,
    }
}

fn step_text(form: StepForm) -> &'static str {
    match form {
        StepForm::BusRead => "bus read ADDRESS WIDTH",
        StepForm::BusWrite => "bus write ADDRESS WIDTH VALUE",
        StepForm::PrivateRead => "core C read OFFSET WIDTH",
        StepForm::PrivateWrite => "core C write OFFSET WIDTH VALUE",
        StepForm::BridgeRead => "bridge read NAME",
        StepForm::BridgeWrite => "bridge write NAME VALUE",
        StepForm::Input => "input SOURCE LEVEL, where LEVEL is 0 or 1",
        StepForm::WindowOpen => "window open",
        StepForm::Reset => "reset",
        StepForm::NodeInput => "node input SOURCE LEVEL, where LEVEL is 0 or 1",
        StepForm::Which => "which CHIP, where CHIP is 0 or 1",
        StepForm::SourceRead => "bridge read ROUTE_ENTRY SOURCE",
        StepForm::SourceWrite => "bridge write ROUTE_ENTRY SOURCE VALUE",
        StepForm::WindowClosed => "window closed",
    }
}

impl fmt::Display for Form {
    fn fmt<W: fmt::Write>(&self, f: &mut fmt::Formatter<W>) -> fmt::Result {
        f.write_str(match self {
            Form::Step(form) => return f.write_str(step_text(*form)),
            Form::Replay => "replay CAPTURE DUMP",
            Form::ExpectValue => {
                "expect VALUE, expect refused N, expect lines BITS or expect moved WORD"
            }
            Form::ExpectRefused => "expect refused N",
            Form::ExpectLines => {
                "expect lines BITS, where BITS is four or twelve flags, each 0 or 1"
            }
            Form::ExpectMoved => "expect moved WORD",
            Form::ReorderBegin => "reorder begin",
            Form::ReorderEnd => "reorder end",
            Form::AnyForm => {
                "bus, core, bridge, input, node, which, window, reset, replay, expect or reorder"
            }
            Form::AnyBus => "bus read or bus write",
            Form::AnyCore => "core C read or core C write",
            Form::AnyBridge => "bridge read or bridge write",
            Form::AnyRegister => {
                "INT_MASK, MSI_EN, INTEDGE, SOFT_INT, AUTO_CTRL0, AUTO_CTRL1, INTCLR, INTISR_CHIP0, INTISR_CHIP1, INTIRR or ROUTE_ENTRY"
            }
            Form::AnyNode => "node input SOURCE LEVEL, where LEVEL is 0 or 1",
            Form::AnyWindow => "window open or window closed",
            Form::AnyReorder => "reorder begin or reorder end",
        })
    }
}
