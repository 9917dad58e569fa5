// The channels of a slot, by their text: a decimal, or `!` and a number for a missing one; none where the text stands for no channel.
ghost use Rattle.std.specs.Prelude.{◌≡◌};
ghost use Rattle.bench_step.specs.Reading as reading;

use crate::parts::first;
use bench_bytes::rest;
use visit::{Absent, Answer};

// A pressure or a humidity.
pub fn amount(text: &[u8]) -> Option<Answer>
    ensures { result ≡ reading.amount text.now }
{
    if first(text) == b'!' {
        return missing(bench_numbers::decimal(rest(text, 1)));
    }
    value(bench_numbers::decimal(text), 0xFFFFFFFF)
}

// A temperature, with a minus or without.
pub fn temperature(text: &[u8]) -> Option<Answer>
    ensures { result ≡ reading.temperature text.now }
{
    match first(text) {
        b'!' => missing(bench_numbers::decimal(rest(text, 1))),
        b'-' => below(bench_numbers::decimal(rest(text, 1))),
        _ => value(bench_numbers::decimal(text), 0x7FFFFFFF),
    }
}

// A missing channel by its number.
// The number 0 would mean a value in the list of steps, so 1 stands for it: every number outside 10 to 14 is answered alike.
fn missing(n: usize) -> Option<Answer>
    ensures { result ≡ reading.missing n }
{
    match u32::try_from(n) {
        Ok(0) => Some(Err(Absent { number: 1 })),
        Ok(number) => Some(Err(Absent { number })),
        Err(_) => None,
    }
}

// A number of at most so much.
fn value(n: usize, most: u32) -> Option<Answer>
    ensures { result ≡ reading.value n most }
{
    if n <= most as usize {
        return Some(Ok(n as u32));
    }
    None
}

// A number below zero, or zero, by how far it lies from it: its two's complement.
fn below(n: usize) -> Option<Answer>
    ensures { result ≡ reading.below n }
{
    if n <= 0x80000000 {
        return Some(Ok(((0x100000000 - n) % 0x100000000) as u32));
    }
    None
}
