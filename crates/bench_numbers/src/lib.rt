// Arguments of a line read: what the word at a place of the line stands for, as a number or as bytes.
#![tactic(auto)]

ghost use Rattle.std.specs.Prelude.{◌≡◌};
ghost use Rattle.bench_numbers.specs.Reading as reading;

mod digits;
mod numbers;
mod pairs;
mod words;

// Why a line is not answered.
#[derive(Clone, Copy, Debug, PartialEq, Eq)]
pub enum Reason {
    UnknownWord,
    WrongNumberOfWords,
    NotANumber,
    OddHex,
    TooLong,
}

// An argument: its number, which for bytes is how many there are, the place where its word ends, and the place of the next byte.
#[derive(Clone, Copy)]
pub struct Argument {
    pub number: usize,
    pub end: usize,
    pub place: usize,
}

// Reads the argument of a kind whose word begins at a place of a line, or says why it is refused.
// Bytes are laid where they are lent, from a place on, as far as they are read. The rest of a line is its place, and none of it is read.
// A kind is a letter of a text and no enum: `read` promises its answer for every byte.
#[tactic(auto, unfolding(crate::specs::Reading::argument))]
pub fn read(
    kind: u8,
    line: &[u8],
    from: usize,
    lent: &mut [u8],
    place: usize,
) -> Result<Argument, Reason>
    ensures { (result, lent.new) ≡ reading.argument kind line.now from lent.old place }
{
    match kind {
        b'B' => pairs::read_bytes(line, from, lent, place),
        b'S' => Ok(Argument {
            number: from,
            end: from,
            place,
        }),
        _ => {
            let number = numbers::read(kind, line, from)?;
            Ok(Argument {
                number: number.value,
                end: number.end,
                place,
            })
        }
    }
}

// The number that a text stands for as a decimal word.
// One more than the largest where it stands for none.
#[tactic(auto, unfolding(crate::specs::Reading::number_of))]
pub fn decimal(text: &[u8]) -> usize
    ensures { result ≡ reading.number_of text.now }
{
    numbers::read_decimal(text, 0).map_or(numbers::LARGEST + 1, |number| number.value)
}
