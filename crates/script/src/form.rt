// The forms of a line that has a step, and the step of each.
ghost use Rattle.std.specs.Prelude.{◌≡◌};
ghost use Rattle.script.specs.Line.{FormNames, form_number, step_in};

use numbered::Kind;
use steps::Step;

// A form has the number of its kind of step. Three kinds have a second form: specs/Line.antt has the words of each.
#[derive(Clone, Copy, PartialEq, Eq)]
pub enum Form {
    BusRead,
    BusWrite,
    PrivateRead,
    PrivateWrite,
    BridgeRead,
    BridgeWrite,
    Input,
    WindowOpen,
    Reset,
    NodeInput,
    Which,
    SourceRead,
    SourceWrite,
    WindowClosed,
}

// A number that no form of a step has.
#[derive(Clone, Copy, PartialEq, Eq)]
pub struct UnknownForm(pub u64);

impl TryFrom<u64> for Form {
    type Error = UnknownForm;

    ghost try_from_gives = { FormNames };

    fn try_from(number: u64) -> Result<Self, UnknownForm> {
        match number {
            0 => Ok(Form::BusRead),
            1 => Ok(Form::BusWrite),
            2 => Ok(Form::PrivateRead),
            3 => Ok(Form::PrivateWrite),
            4 => Ok(Form::BridgeRead),
            5 => Ok(Form::BridgeWrite),
            6 => Ok(Form::Input),
            7 => Ok(Form::WindowOpen),
            8 => Ok(Form::Reset),
            9 => Ok(Form::NodeInput),
            10 => Ok(Form::Which),
            11 => Ok(Form::SourceRead),
            12 => Ok(Form::SourceWrite),
            13 => Ok(Form::WindowClosed),
            _ => Err(UnknownForm(number)),
        }
    }
}

impl From<Form> for u64 {
    ghost from_gives = { λ form number. number ≡ form_number form };

    fn from(form: Form) -> u64 {
        match form {
            Form::BusRead => 0,
            Form::BusWrite => 1,
            Form::PrivateRead => 2,
            Form::PrivateWrite => 3,
            Form::BridgeRead => 4,
            Form::BridgeWrite => 5,
            Form::Input => 6,
            Form::WindowOpen => 7,
            Form::Reset => 8,
            Form::NodeInput => 9,
            Form::Which => 10,
            Form::SourceRead => 11,
            Form::SourceWrite => 12,
            Form::WindowClosed => 13,
        }
    }
}

impl Form {
    // The step of a line of the form, from the numbers at its words' places.
    #[tactic(auto, unfolding(crate::specs::Line::step_in, crate::specs::Line::forms))]
    pub(crate) fn step(self, v: [u64; 7]) -> Option<Step>
        ensures { result ≡ step_in v (form_number self) }
    {
        match self {
            Form::BusRead => Kind::BusRead.step(0, v[2], v[3], 0),
            Form::BusWrite => Kind::BusWrite.step(0, v[2], v[3], v[4]),
            Form::PrivateRead => Kind::PrivateRead.step(v[1], v[3], v[4], 0),
            Form::PrivateWrite => Kind::PrivateWrite.step(v[1], v[3], v[4], v[5]),
            Form::BridgeRead => Kind::BridgeRead.step(v[2], 0, 0, 0),
            Form::BridgeWrite => Kind::BridgeWrite.step(v[2], 0, 0, v[3]),
            Form::Input => Kind::Input.step(0, v[1], 0, v[2]),
            Form::WindowOpen => Kind::Window.step(0, 0, 0, 1),
            Form::Reset => Kind::Reset.step(0, 0, 0, 0),
            Form::NodeInput => Kind::NodeInput.step(0, v[2], 0, v[3]),
            Form::Which => Kind::Which.step(0, v[1], 0, 0),
            Form::SourceRead => Kind::BridgeRead.step(v[2], v[3], 0, 0),
            Form::SourceWrite => Kind::BridgeWrite.step(v[2], v[3], 0, v[4]),
            Form::WindowClosed => Kind::Window.step(0, 0, 0, 0),
        }
    }
}
