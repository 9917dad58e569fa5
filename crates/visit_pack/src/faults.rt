// What can be wrong with a text: with one of its lines, with its end, or with its size; and what is said of it.
use crate::fields::Field;
use paper::Refusal;
use std::fmt;
use visit::RecordError;

// What is wrong with a line, or with the text's end.
#[derive(Clone, Copy)]
pub(crate) enum Fault {
    Indentation,
    Word,
    Depth,
    Order,
    EmptyGroup,
    Number,
    // A field's value is wrong.
    Value(Field, visit_typed::Fault),
    TooSoon,
}

impl fmt::Display for Fault {
    fn fmt<W: fmt::Write>(&self, f: &mut fmt::Formatter<W>) -> fmt::Result {
        f.write_str(reason(*self))
    }
}

// A bad line by its number, counted from 1.
#[derive(Clone, Copy)]
pub(crate) struct BadLine {
    pub line: usize,
    pub fault: Fault,
}

// Why a text is not packed.
#[derive(Clone, Copy)]
pub(crate) enum TextError {
    TooLong,
    Line(BadLine),
    Record(Refusal),
}

impl From<BadLine> for TextError {
    fn from(bad: BadLine) -> TextError {
        TextError::Line(bad)
    }
}

impl From<RecordError> for TextError {
    fn from(error: RecordError) -> TextError {
        TextError::Record(match error {
            RecordError::Whole(refusal) => refusal,
            RecordError::At(fault) => Refusal {
                number: fault.number,
            },
        })
    }
}

impl fmt::Display for TextError {
    fn fmt<W: fmt::Write>(&self, f: &mut fmt::Formatter<W>) -> fmt::Result {
        match self {
            TextError::TooLong => write!(f, "the text has more than 1,048,576 bytes"),
            TextError::Line(bad) => write!(f, "line {}: {}", bad.line, bad.fault),
            TextError::Record(refusal) => write!(
                f,
                "the record would have more than 65,535 bytes ({})",
                refusal.number
            ),
        }
    }
}

// The words for what is wrong.
fn reason(fault: Fault) -> &'static str {
    match fault {
        Fault::Indentation => "indentation is not 0, 2, 4, 6 or 8 spaces",
        Fault::Word => {
            "this word is none of house, floor, room, reading, time, temperature, pressure, humidity"
        }
        Fault::Depth => "this line stands at the wrong depth",
        Fault::Order => "time, temperature, pressure and humidity stand in this order",
        Fault::EmptyGroup => "the group before this line is empty",
        Fault::Number => "the number is not this group's place",
        Fault::Value(field, visit_typed::Fault::Unwritten) => as_written(field),
        Fault::Value(_, visit_typed::Fault::Outside) => "this value is outside its limits",
        Fault::Value(Field::Pressure, visit_typed::Fault::Uneven) => {
            "a pressure is a multiple of 1/256 Pa"
        }
        Fault::Value(_, visit_typed::Fault::Uneven) => "a humidity is a multiple of 1/1024 %RH",
        Fault::Value(_, visit_typed::Fault::NoReason) => {
            "a missing value has a number from 10 to 14"
        }
        Fault::TooSoon => "the text ends too soon",
    }
}

// How a field's value is written.
fn as_written(field: Field) -> &'static str {
    match field {
        Field::Time => "a time is written as: time 1700000000",
        Field::Temperature => "a temperature is written as: temperature 25.08 °C",
        Field::Pressure => "a pressure is written as: pressure 100653.25 Pa",
        Field::Humidity => "a humidity is written as: humidity 36.5 %RH",
    }
}
