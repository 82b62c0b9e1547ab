// One line of a script: what it asks for, or what is wrong with it.
use crate::errors::{LineError, WordError};
use crate::expect::Expectation;
use crate::flags::Flags;
use crate::form::{Form, register_named};
use crate::request::{Request, Row};
use crate::words::{first_words, until_empty};
use numbers::NumberError;
use script::Form as StepForm;

// The most bytes of a line.
pub(crate) const LONGEST: usize = 1024;

fn number<'a>(word: &'a str) -> Result<u64, WordError<'a>> {
    numbers::parse_number(word.as_bytes()).map_err(|error| match error {
        NumberError::TooLarge => WordError::TooLarge(word),
        NumberError::Malformed => WordError::Malformed(word),
    })
}

fn bit<'a>(word: &'a str) -> Result<u64, WordError<'a>> {
    let value = number(word)?;
    if value < 2 {
        Ok(value)
    } else {
        Err(WordError::NoBit(word))
    }
}

fn flags<'a>(word: &'a str) -> Result<Flags, WordError<'a>> {
    Flags::of_word(word).ok_or(WordError::NoFlags(word))
}

// A line that has not as many words as its form.
fn miscounted<'a>(form: Form, words: &[&'a str]) -> WordError<'a> {
    match words.get(form.words()) {
        Some(word) => WordError::Unexpected(word),
        None => WordError::Missing,
    }
}

// The number of a register that the form says there is.
fn register(name: &str) -> u64 {
    register_named(name).unwrap_or(0) as u64
}

// The numbers of a step's line, from the second word's place on.
fn values<'a>(form: StepForm, words: &[&'a str]) -> Result<[u64; 5], WordError<'a>> {
    Ok(match (form, words) {
        (StepForm::BusRead, [_, _, address, width]) => [0, number(address)?, number(width)?, 0, 0],
        (StepForm::BusWrite, [_, _, address, width, value]) => {
            [0, number(address)?, number(width)?, number(value)?, 0]
        }
        (StepForm::PrivateRead, [_, core, _, offset, width]) => {
            [number(core)?, 0, number(offset)?, number(width)?, 0]
        }
        (StepForm::PrivateWrite, [_, core, _, offset, width, value]) => {
            [
                number(core)?,
                0,
                number(offset)?,
                number(width)?,
                number(value)?,
            ]
        }
        (StepForm::BridgeRead, [_, _, name]) => [0, register(name), 0, 0, 0],
        (StepForm::BridgeWrite, [_, _, name, value]) => [0, register(name), number(value)?, 0, 0],
        (StepForm::Input, [_, source, level]) => [number(source)?, bit(level)?, 0, 0, 0],
        (StepForm::NodeInput, [_, _, source, level]) => [0, number(source)?, bit(level)?, 0, 0],
        (StepForm::Which, [_, chip]) => [bit(chip)?, 0, 0, 0, 0],
        (StepForm::SourceRead, [_, _, _, source]) => {
            [0, numbered::ROUTE_ENTRY, number(source)?, 0, 0]
        }
        (StepForm::SourceWrite, [_, _, _, source, value]) => {
            [0, numbered::ROUTE_ENTRY, number(source)?, number(value)?, 0]
        }
        (StepForm::WindowOpen | StepForm::WindowClosed, [_, _]) | (StepForm::Reset, [_]) => [0; 5],
        _ => return Err(miscounted(Form::Step(form), words)),
    })
}

fn row<'a>(form: StepForm, words: &[&'a str], line: u64) -> Result<Row, WordError<'a>> {
    let [second, third, fourth, fifth, sixth] = values(form, words)?;
    Ok([u64::from(form), second, third, fourth, fifth, sixth, line])
}

fn request<'a>(form: Form, words: &[&'a str], line: u64) -> Result<Request<'a>, WordError<'a>> {
    Ok(match (form, words) {
        (Form::Step(form), _) => Request::Step(row(form, words, line)?),
        (Form::Replay, [_, from, to]) => Request::Replay { from, to },
        (Form::ExpectValue, [_, value]) => Request::Expect(Expectation::Value(number(value)?)),
        (Form::ExpectRefused, [_, _, word]) => {
            Request::Expect(Expectation::Refused(number(word)?))
        }
        (Form::ExpectLines, [_, _, word]) => Request::Expect(Expectation::Lines(flags(word)?)),
        (Form::ExpectMoved, [_, _, word]) => Request::Expect(Expectation::Moved(number(word)?)),
        (Form::ReorderBegin, [_, _]) => Request::Begin,
        (Form::ReorderEnd, [_, _]) => Request::End,
        _ => return Err(miscounted(form, words)),
    })
}

pub(crate) fn parse<'a>(text: &'a [u8], line: u64) -> Result<Request<'a>, LineError<'a>> {
    if LONGEST < text.len() {
        return Err(LineError::TooLong);
    }
    if !text::printable(text) {
        return Err(LineError::Unprintable);
    }
    let list = first_words(text);
    let words = until_empty(&list);
    if words.is_empty() {
        return Ok(Request::Blank);
    }
    let form = Form::of(words);
    request(form, words, line).map_err(|error| LineError::Word { error, form })
}
