// A line read, once, into the command that it asks for and the command's values.
#![tactic(auto)]

ghost use Rattle.std.specs.Prelude.{◌≡◌};
ghost use Rattle.bench_command.specs.Commands as known;

use bench_numbers::Reason;
use bus::{Bus, Device};
use kinds::Kind;
use machine::Event;

mod arguments;
mod commands;
mod rows;
mod table;
mod text;

// The words of one reading in a line: the lengths of the two blocks and of the data, and the three codes.
#[derive(Clone, Copy)]
pub struct Words {
    pub one: usize,
    pub two: usize,
    pub raw: usize,
    pub t: u8,
    pub p: u8,
    pub h: u8,
}

// The words of one reading or two in a line, zeros for what it lacks, and the tolerances by which the two are compared.
#[derive(Clone, Copy)]
pub struct Sent {
    pub first: Words,
    pub second: Words,
    pub temperature: u32,
    pub pressure: u32,
    pub humidity: u32,
}

// What is shown of a reading: its channels, its map point, its cells, or how it compares with a second.
#[derive(Clone, Copy)]
pub enum Shown {
    Comp,
    Point,
    Cells,
    Rooms,
}

// What the machine has no part in, with its values. Bytes are laid one after another where they are lent, and the question has their lengths: of the
// two blocks, of the readings, of a status, of pairs, of a message, of a record. The room is how long the lent buffer or list is.
#[derive(Clone, Copy)]
pub enum Question {
    Cal {
        one: usize,
        two: usize,
    },
    Reading {
        kind: Kind,
        shown: Shown,
        sent: Sent,
    },
    WaitMaximum {
        t: u8,
        p: u8,
        h: u8,
    },
    WaitTypical {
        t: u8,
        p: u8,
        h: u8,
    },
    Poll {
        allowance: usize,
        status: usize,
    },
    BusWrite {
        device: Device,
        pairs: usize,
        room: usize,
    },
    BusDecode {
        bus: Bus,
        message: usize,
        room: usize,
    },
    BusRead {
        device: Device,
        register: u8,
        room: usize,
    },
    VisitRead {
        record: usize,
        room: usize,
    },
    Day {
        one: usize,
        two: usize,
        readings: usize,
        room: usize,
    },
}

// What a line asks: nothing where it is empty, nothing that can be answered, a question, a visit written, or something of the machine.
#[derive(Clone, Copy)]
pub enum Asked {
    Nothing,
    Refused(Reason),
    Question(Question),
    // The length of the lent buffer, and the place in the line after which its other words are the steps. None of them is read yet.
    VisitWrite { room: usize, steps: usize },
    // The kind of part, and the number of conversions that came before.
    Fresh { kind: Kind, begun: u32 },
    Event(Event),
    Ledger,
}

// The longest line.
pub const LONGEST_LINE: usize = 4096;

// What a line asks. The bytes among its words are laid where they are lent, as far as the line is read.
// A line that is too long is refused first, then an unknown word, then a wrong number of words, and then the arguments from left to right.
#[tactic(auto, unfolding(crate::specs::Commands::asked))]
pub fn read(line: &[u8], lent: &mut [u8]) -> Asked
    ensures { (result, lent.new) ≡ known.asked line.now lent.old }
{
    if LONGEST_LINE < line.len() {
        return Asked::Refused(Reason::TooLong);
    }
    if line.is_empty() {
        return Asked::Nothing;
    }
    table::find(line, lent)
}
