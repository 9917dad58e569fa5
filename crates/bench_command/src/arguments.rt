// The arguments of a line, as its row has them.
ghost use Rattle.std.specs.Prelude.{◌≡◌, Ok, set};
ghost use Rattle.bench_command.specs.Arguments as arguments;

use crate::{rows, text};
use bench_numbers::{Argument, Reason};

// The most arguments of a line.
pub const MOST: usize = 16;

// How far a line is read: the numbers of its arguments, zeros after them, and how many they are; the place in the line, and that of the next byte.
#[derive(Clone, Copy)]
pub struct Progress {
    pub numbers: [usize; MOST],
    pub count: usize,
    pub at: usize,
    pub place: usize,
}

// Walks along a line as its row goes, and reads a word for each argument of the row.
// The bytes among them are laid one after another where they are lent. Once an argument is refused, nothing more is read.
pub fn walk(row: &[u8], line: &[u8], lent: &mut [u8]) -> Result<Progress, Reason>
    ensures { (result, lent.new) ≡ arguments.walked row.now line.now (Ok arguments.start, lent.old) }
{
    let mut w = Progress {
        numbers: [0; MOST],
        count: 0,
        at: 0,
        place: 0,
    };
    for &character in row {
        w = step(character, line, w, lent)?;
    }
    Ok(w)
}

// One character of the row further: an argument is read, and any other character is passed over.
fn step(character: u8, line: &[u8], w: Progress, lent: &mut [u8]) -> Result<Progress, Reason>
    ensures { (result, lent.new) ≡ arguments.stepped character line.now (Ok w, lent.old) }
{
    if rows::is_argument(character) {
        let argument = bench_numbers::read(character, line, w.at, lent, w.place)?;
        return Ok(taken(argument, w));
    }
    Ok(Progress {
        at: text::past(line, w.at),
        ..w
    })
}

// With an argument more.
fn taken(argument: Argument, w: Progress) -> Progress
    ensures { Ok result ≡ arguments.taken (Ok argument) w }
{
    Progress {
        numbers: put(w.numbers, w.count, argument.number),
        count: w.count.saturating_add(1).min(MOST),
        at: argument.end,
        place: argument.place,
    }
}

// The numbers with one at a place, and past the last place none.
fn put(mut numbers: [usize; MOST], place: usize, number: usize) -> [usize; MOST]
    ensures { result ≡ set numbers place number }
{
    if place < MOST {
        numbers[place] = number;
    }
    numbers
}
