// Visit records: their types, tags and limits. What a record is, and how it is read and written, is defined in specs/.

#![tactic(auto)]

ghost use Rattle.std.specs.Prelude.{◌≡◌};
ghost use Rattle.visit.specs.Tree.{tag_of, most};
ghost use Rattle.visit.specs.declared.RecordError.TheVariants.{At};

use paper::Refusal;

// Tags. A value has the tag of its channel.
pub const GROUP: u8 = 1;

pub const TIME: u8 = 2;

pub const TEMPERATURE: u8 = 3;

pub const PRESSURE: u8 = 4;

pub const PASCALS: u8 = 5;

pub const HUMIDITY: u8 = 6;

pub const MISSING: u8 = 7;

// Bytes of a field's header, of a value and of a missing answer.
pub const HEADER: usize = 3;

pub const VALUE: usize = 4;

pub const MISSING_ANSWER: usize = 2;

// Limits: bytes and steps of a record, levels of groups, the largest humidity and the most whole pascals, and the numbers of a missing answer.
pub const MOST_BYTES: usize = 65535;

pub const MOST_STEPS: usize = 14799;

pub const LEVELS: usize = 4;

pub const MOST_HUMIDITY: u32 = 102400;

pub const MOST_PASCALS: u32 = 16777215;

pub const FIRST_MISSING: u32 = 10;

pub const LAST_MISSING: u32 = 14;

// A lent list has eight words for each step, and these are the first of them.
pub const WORDS: usize = 8;

pub const OPEN: u32 = 1;

pub const SLOT: u32 = 2;

pub const CLOSE: u32 = 3;

// The places that a field can stand at: where only a group may stand, first in a group, and in a slot after its time.
#[derive(Clone, Copy, Debug, PartialEq, Eq)]
pub enum Place {
    Group,
    First,
    Temperature,
    Pressure,
    Humidity,
}

impl Place {
    // The tag of a value here.
    // Where only a group may stand it is 0.
    pub fn tag(self) -> u8
        ensures { result ≡ tag_of self }
    {
        match self {
            Place::Group => 0,
            Place::First => TIME,
            Place::Temperature => TEMPERATURE,
            Place::Pressure => PRESSURE,
            Place::Humidity => HUMIDITY,
        }
    }

    // The largest value here.
    // Where only a group may stand it is 0.
    pub fn most(self) -> u32
        ensures { result ≡ most self }
    {
        match self {
            Place::Group => 0,
            Place::First | Place::Temperature | Place::Pressure => u32::MAX,
            Place::Humidity => MOST_HUMIDITY,
        }
    }
}

// What a tag means at a place.
#[derive(Clone, Copy, Debug, PartialEq, Eq)]
pub enum Kind {
    Group,
    Value,
    Pascals,
    Missing,
    Strange,
}

// The number of a missing answer. A lent list may have any word there, so that this is wider than what a channel's number can be.
#[derive(Clone, Copy, Debug, PartialEq, Eq)]
pub struct Absent {
    pub number: u32,
}

// A value's word, or why there is none. A temperature's word is its two's complement.
pub type Answer = Result<u32, Absent>;

// A time and the answers of its three channels.
#[derive(Clone, Copy, Debug, PartialEq, Eq)]
pub struct Slot {
    pub time: u32,
    pub temperature: Answer,
    pub pressure: Answer,
    pub humidity: Answer,
}

// A visit is a list of these. A stray step is none that a visit can have.
#[derive(Clone, Copy, Debug, PartialEq, Eq)]
pub enum Step {
    Open,
    Slot(Slot),
    Close,
    Stray,
}

// What the innermost open group holds so far.
#[derive(Clone, Copy, Debug, PartialEq, Eq)]
pub enum Holds {
    Nothing,
    Groups,
    Slot,
}

// Where a list of steps stands: before the record, in a group under which so many levels may still be opened, or after the record.
#[derive(Clone, Copy, Debug, PartialEq, Eq)]
pub enum Stage {
    Start,
    Open(u8, Holds),
    Done,
}

// What a step makes of a stage: the next one, or why there is none.
pub type Turn = Result<Stage, Refusal>;

// A fault in a record: the paper's number, 18 to 22, and the offset of the field or the place of the step that has it.
#[derive(Clone, Copy, Debug, PartialEq, Eq)]
pub struct Fault {
    pub number: u8,
    pub place: usize,
}

// Why a record is not read or not written: it is refused as a whole, or for the first fault in it.
#[derive(Clone, Copy, Debug, PartialEq, Eq)]
pub enum RecordError {
    Whole(Refusal),
    At(Fault),
}

impl From<Fault> for RecordError {
    ghost from_gives = { λ fault error. error ≡ At fault };

    fn from(fault: Fault) -> RecordError {
        RecordError::At(fault)
    }
}
