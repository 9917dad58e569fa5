// What is said of a record that is refused.
use std::fmt;
use visit::{Fault, RecordError};

// A record's refusal in words.
#[derive(Clone, Copy)]
pub(crate) struct Refused {
    pub error: RecordError,
}

impl fmt::Display for Refused {
    fn fmt<W: fmt::Write>(&self, f: &mut fmt::Formatter<W>) -> fmt::Result {
        match self.error {
            RecordError::Whole(refusal) => {
                write!(f, "more than 65,535 bytes ({})", refusal.number)
            }
            RecordError::At(Fault { number, place }) => {
                write!(f, "byte {place}: {} ({number})", reason(number))
            }
        }
    }
}

// Why a field is refused.
fn reason(number: u8) -> &'static str {
    match number {
        paper::CUT_SHORT => "the field's header or body runs past its group or the record",
        paper::TAG_OUT_OF_PLACE => "tag out of place",
        paper::WRONG_FIELD_LENGTH => "wrong length",
        paper::TOO_DEEP => "groups more than four levels deep",
        paper::VALUE_OUTSIDE => "value outside its limits",
        _ => "",
    }
}
