// Pairs of hex digits.
ghost use Rattle.std.specs.Prelude.{◌≡◌, ◌+◌, ◌<◌, ◌^◌, length as size};
ghost use Rattle.bench_numbers.specs.Reading as reading;

use crate::{Argument, Reason, digits, words};

// The byte of the two hex digits that a text begins with.
// A character that is no digit is refused, and so is a digit alone.
#[tactic(auto, using(crate::proofs::Characters::none, crate::proofs::Characters::no_high, crate::proofs::Characters::alone, crate::proofs::Characters::no_low, crate::proofs::Characters::both))]
pub fn read_pair(text: &[u8]) -> Result<u8, Reason>
    ensures { result ≡ reading.pair text.now }
{
    match text {
        [] => Err(Reason::NotANumber),
        [high] => {
            digits::value(*high, 16)?;
            Err(Reason::OddHex)
        }
        [high, low, ..] => {
            let high = digits::value(*high, 16)?;
            let low = digits::value(*low, 16)?;
            Ok((high * 16 + low) as u8)
        }
    }
}

// Reads a word of hex pairs, and lays their bytes where they are lent, from a place on.
// A dash stands for none.
#[tactic(auto, using(crate::proofs::Whole::no_word, crate::proofs::Whole::dash, crate::proofs::Whole::no_dash), unfolding(crate::specs::Reading::bytes))]
pub fn read_bytes(
    line: &[u8],
    from: usize,
    lent: &mut [u8],
    place: usize,
) -> Result<Argument, Reason>
    ensures { (result, lent.new) ≡ reading.bytes line.now from lent.old place }
{
    match words::word(line, from) {
        [] => Err(Reason::NotANumber),
        [b'-'] => Ok(Argument {
            number: 0,
            end: from + 1,
            place,
        }),
        word => lay_pairs(word, from, lent, place),
    }
}

// Lays the bytes of a word's pairs where they are lent, from a place on, up to the first that is refused.
// A byte that has no room is refused as too long.
fn lay_pairs(word: &[u8], from: usize, lent: &mut [u8], place: usize) -> Result<Argument, Reason>
    requires { from + size word.now < 2 ^ 64 }
    ensures { (result, lent.new) ≡ reading.pairs_laid place word.now from lent.old place }
{
    let mut at = place;
    for pair in word.chunks(2) {
        let byte = read_pair(pair)?;
        if lent.len() <= at {
            return Err(Reason::TooLong);
        }
        lent[at] = byte;
        at += 1;
    }
    Ok(Argument {
        number: at - place,
        end: from + word.len(),
        place: at,
    })
}
