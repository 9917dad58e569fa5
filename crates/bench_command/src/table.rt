// The commands, one in a row, and the row that a line is of.
ghost use Rattle.std.specs.Prelude.{◌≡◌, false, length};
ghost use Rattle.bench_command.specs.Words as words;
ghost use Rattle.bench_command.specs.Table as known;

use crate::commands::Command;
use crate::{Asked, Shown, arguments, commands, rows, text};
use bench_numbers::Reason;
use kinds::Kind;

// How many commands there are.
const ROWS: usize = 31;

// The commands, each with its row: its words and a capital for each argument.
// B stands for bytes, C for a code, D for a decimal, L for a buffer's length, P for a pair, and S at the end for any words.
static TABLE: [(&[u8], Command); ROWS] = [
    (b"fresh", Command::Fresh(Kind::Bme280)),
    (b"fresh bmp", Command::Fresh(Kind::Bmp280)),
    (b"fresh D", Command::Fresh(Kind::Bme280)),
    (b"fresh bmp D", Command::Fresh(Kind::Bmp280)),
    (b"power", Command::Power),
    (b"copied", Command::Copied),
    (b"write P P", Command::Write),
    (b"finish D D D", Command::Finish),
    (b"wake", Command::Wake),
    (b"open P", Command::Open),
    (b"byte", Command::Byte),
    (b"close L", Command::Close),
    (b"ledger", Command::Ledger),
    (b"cal B B", Command::Cal),
    (b"wait max C C C", Command::WaitMaximum),
    (b"wait typ C C C", Command::WaitTypical),
    (b"poll D B", Command::Poll),
    (b"i2c write P B L", Command::I2cWrite),
    (b"i2c decode B L", Command::I2cDecode),
    (b"i2c read P P L", Command::I2cRead),
    (b"spi write B L", Command::SpiWrite),
    (b"spi decode B L", Command::SpiDecode),
    (b"spi read P L", Command::SpiRead),
    (b"visit read B L", Command::VisitRead),
    (b"day B B B L", Command::Day),
    (
        b"bmp B B B C C C",
        Command::Reading(Kind::Bmp280, Shown::Comp),
    ),
    (b"visit write LS", Command::VisitWrite),
    (
        b"comp B B B C C C",
        Command::Reading(Kind::Bme280, Shown::Comp),
    ),
    (
        b"point B B B C C C",
        Command::Reading(Kind::Bme280, Shown::Point),
    ),
    (
        b"cells B B B C C C",
        Command::Reading(Kind::Bme280, Shown::Cells),
    ),
    (
        b"rooms B B B C C C B B B C C C D D D",
        Command::Reading(Kind::Bme280, Shown::Rooms),
    ),
];

// The table, as the definitions have it.
#[tactic(auto, unfolding(crate::specs::Table::commands))]
fn table() -> &'static [(&'static [u8], Command); ROWS]
    ensures rows { known.as_rows result.now ≡ known.commands }
    ensures many { length result.now ≡ 31 }
{
    &TABLE
}

// What a line asks by its row: the first that it is of decides.
pub(crate) fn find(line: &[u8], lent: &mut [u8]) -> Asked
    ensures { (result, lent.new) ≡ known.tried known.commands line.now (words.count line.now) false lent.old }
{
    let words = text::count(line);
    let mut named = false;
    for &(row, command) in table().iter() {
        if rows::is_of(row, line, words) {
            return ask(row, command, line, lent);
        }
        named |= rows::fits(row, line);
    }
    refuse(named)
}

// The command of a row with the arguments of a line, or why one of them is refused.
#[tactic(auto, unfolding(crate::specs::Table::asked_by))]
fn ask(row: &[u8], command: Command, line: &[u8], lent: &mut [u8]) -> Asked
    ensures { (result, lent.new) ≡ known.asked_by (known.make_of command) row.now line.now lent.old }
{
    match arguments::walk(row, line, lent) {
        Ok(w) => commands::asked(command, w.numbers),
        Err(reason) => Asked::Refused(reason),
    }
}

// Why a line that is of no row is refused, by whether its first words name a command.
fn refuse(named: bool) -> Asked
    ensures { result ≡ known.refused named }
{
    Asked::Refused(if named {
        Reason::WrongNumberOfWords
    } else {
        Reason::UnknownWord
    })
}
