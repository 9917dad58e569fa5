// Decimals, and the pair of hex digits that is a number.
ghost use Rattle.std.specs.Prelude.{◌≡◌, Ok, drop};
ghost use Rattle.bench_numbers.specs.Reading as reading;
ghost use Rattle.bench_numbers.specs.Words.{word};

use crate::{Reason, digits, pairs, words};

// The number that a word stands for, and the place where the word ends.
#[derive(Clone, Copy)]
pub struct Number {
    pub value: usize,
    pub end: usize,
}

// The largest decimal.
pub const LARGEST: usize = 4294967295;

// The longest buffer that a line can ask for.
pub const LONGEST_BUFFER: usize = 256;

// The largest setting code.
pub const LARGEST_CODE: usize = 255;

// The number of an argument's kind whose word begins at a place of a line.
#[tactic(auto, unfolding(crate::specs::Reading::number))]
pub fn read(kind: u8, line: &[u8], from: usize) -> Result<Number, Reason>
    ensures { result ≡ reading.number kind (word (drop from line.now)) from }
{
    if kind == b'P' {
        return read_octet(line, from);
    }
    limited(kind, read_decimal(line, from)?)
}

// A decimal as its kind takes it: a code within a byte, as one that a byte does not hold is out of range all the same, and a buffer that is not too long.
fn limited(kind: u8, decimal: Number) -> Result<Number, Reason>
    ensures { result ≡ reading.limited kind (Ok decimal) }
{
    match kind {
        b'C' => Ok(Number {
            value: decimal.value.min(LARGEST_CODE),
            ..decimal
        }),
        b'L' if LONGEST_BUFFER < decimal.value => Err(Reason::TooLong),
        _ => Ok(decimal),
    }
}

// The number that a word of decimal digits stands for.
// A word of none, a character that is no digit, and a number above the largest are refused.
pub fn read_decimal(line: &[u8], from: usize) -> Result<Number, Reason>
    ensures { result ≡ reading.decimal (word (drop from line.now)) from }
{
    let word = words::word(line, from);
    if word.is_empty() {
        return Err(Reason::NotANumber);
    }
    let mut value = 0;
    for &byte in word {
        value = value * 10 + digits::value(byte, 10)? as usize;
        if LARGEST < value {
            return Err(Reason::NotANumber);
        }
    }
    Ok(Number {
        value,
        end: from + word.len(),
    })
}

// The byte that a word of exactly two hex digits stands for.
#[tactic(auto, using(crate::proofs::Whole::octet_of, crate::proofs::Whole::no_octet, crate::proofs::Whole::other_length))]
fn read_octet(line: &[u8], from: usize) -> Result<Number, Reason>
    ensures { result ≡ reading.octet (word (drop from line.now)) from }
{
    let word = words::word(line, from);
    if word.len() != 2 {
        return Err(Reason::NotANumber);
    }
    match pairs::read_pair(word) {
        Ok(byte) => Ok(Number {
            value: byte as usize,
            end: from + 2,
        }),
        Err(_) => Err(Reason::NotANumber),
    }
}
