// What a command and the numbers of its arguments ask.
ghost use Rattle.std.specs.Prelude.{◌≡◌, ◌%◌, ◌≤◌};
ghost use Rattle.bench_command.specs.Table as table;

use crate::arguments::MOST;
use crate::{Asked, Question, Sent, Shown, Words};
use bus::{Bus, Device};
use kinds::Kind;
use machine::Event;

// The commands.
#[derive(Clone, Copy)]
pub(crate) enum Command {
    Fresh(Kind),
    Power,
    Copied,
    Write,
    Finish,
    Wake,
    Open,
    Byte,
    Close,
    Ledger,
    Cal,
    WaitMaximum,
    WaitTypical,
    Poll,
    I2cWrite,
    I2cDecode,
    I2cRead,
    SpiWrite,
    SpiDecode,
    SpiRead,
    VisitRead,
    Day,
    VisitWrite,
    Reading(Kind, Shown),
}

// A byte that was read as a number.
fn octet(n: usize) -> u8
    ensures { result ≡ n % 256 }
{
    (n % 256) as u8
}

// A count or a number of conversions that was read as a decimal.
fn count(n: usize) -> u32
    ensures { result ≡ n % 4294967296 }
{
    (n % 4294967296) as u32
}

// The words of a reading, of which the first stands at a place.
#[tactic(auto, unfolding(crate::specs::Table::words))]
fn words(n: [usize; MOST], at: usize) -> Words
    requires { at ≤ 10 }
    ensures { result ≡ table.words n at }
{
    Words {
        one: n[at],
        two: n[at + 1],
        raw: n[at + 2],
        t: octet(n[at + 3]),
        p: octet(n[at + 4]),
        h: octet(n[at + 5]),
    }
}

// The words of a reading or two.
#[tactic(auto, unfolding(crate::specs::Table::sent))]
fn sent(n: [usize; MOST]) -> Sent
    ensures { result ≡ table.sent n }
{
    Sent {
        first: words(n, 0),
        second: words(n, 6),
        temperature: count(n[12]),
        pressure: count(n[13]),
        humidity: count(n[14]),
    }
}

// What a command asks, with its numbers.
pub(crate) fn asked(command: Command, n: [usize; MOST]) -> Asked
    ensures { result ≡ table.make_of command n }
{
    match command {
        Command::Fresh(kind) => Asked::Fresh {
            kind,
            begun: count(n[0]),
        },
        Command::Ledger => Asked::Ledger,
        Command::VisitWrite => Asked::VisitWrite {
            room: n[0],
            steps: n[1],
        },
        Command::Power => Asked::Event(Event::Power),
        Command::Copied => Asked::Event(Event::Copied),
        Command::Write => Asked::Event(Event::Write(octet(n[0]), octet(n[1]))),
        Command::Finish => Asked::Event(Event::Finish(count(n[0]), count(n[1]), count(n[2]))),
        Command::Wake => Asked::Event(Event::Wake),
        Command::Open => Asked::Event(Event::Open(octet(n[0]))),
        Command::Byte => Asked::Event(Event::Byte),
        Command::Close => Asked::Event(Event::Close(n[0])),
        Command::Cal => Asked::Question(Question::Cal {
            one: n[0],
            two: n[1],
        }),
        Command::WaitMaximum => Asked::Question(Question::WaitMaximum {
            t: octet(n[0]),
            p: octet(n[1]),
            h: octet(n[2]),
        }),
        Command::WaitTypical => Asked::Question(Question::WaitTypical {
            t: octet(n[0]),
            p: octet(n[1]),
            h: octet(n[2]),
        }),
        Command::Poll => Asked::Question(Question::Poll {
            allowance: n[0],
            status: n[1],
        }),
        Command::I2cWrite => Asked::Question(Question::BusWrite {
            device: Device::At(octet(n[0])),
            pairs: n[1],
            room: n[2],
        }),
        Command::I2cDecode => Asked::Question(Question::BusDecode {
            bus: Bus::I2c,
            message: n[0],
            room: n[1],
        }),
        Command::I2cRead => Asked::Question(Question::BusRead {
            device: Device::At(octet(n[0])),
            register: octet(n[1]),
            room: n[2],
        }),
        Command::SpiWrite => Asked::Question(Question::BusWrite {
            device: Device::Selected,
            pairs: n[0],
            room: n[1],
        }),
        Command::SpiDecode => Asked::Question(Question::BusDecode {
            bus: Bus::Spi,
            message: n[0],
            room: n[1],
        }),
        Command::SpiRead => Asked::Question(Question::BusRead {
            device: Device::Selected,
            register: octet(n[0]),
            room: n[1],
        }),
        Command::VisitRead => Asked::Question(Question::VisitRead {
            record: n[0],
            room: n[1],
        }),
        Command::Day => Asked::Question(Question::Day {
            one: n[0],
            two: n[1],
            readings: n[2],
            room: n[3],
        }),
        Command::Reading(kind, shown) => Asked::Question(Question::Reading {
            kind,
            shown,
            sent: sent(n),
        }),
    }
}
