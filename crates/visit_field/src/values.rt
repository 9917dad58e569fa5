// A field of n bytes that stand in the record, by what its tag means.
ghost use Rattle.std.specs.Prelude.{◌≡◌, ◌+◌, ◌≤◌, length, IfOk};
ghost use Rattle.visit_field.specs.Front.{word_at, word_within, value_at, pascals_at, missing_at, by_kind_at};

use crate::Front;
use visit::{Absent, Fault, Kind, Place};

// Four bytes from the offset on, high byte first.
fn word(bytes: &[u8], at: usize) -> u32
    requires { at + 4 ≤ length bytes.now }
    ensures { result ≡ word_at bytes.now at }
{
    u32::from_be_bytes([bytes[at], bytes[at + 1], bytes[at + 2], bytes[at + 3]])
}

// The word of a field of four bytes: 20 for another length, then 22 where it is over the most.
#[tactic(auto, unfolding(crate::specs::Front::word_within))]
fn word_within(bytes: &[u8], at: usize, n: usize, most: u32) -> Result<u32, Fault>
    requires { at + 3 + n ≤ length bytes.now }
    ensures word { result ≡ word_within most bytes.now at n }
    ensures bound { IfOk result (λ word. word ≤ most) }
{
    if n != visit::VALUE {
        return Err(Fault {
            number: paper::WRONG_FIELD_LENGTH,
            place: at,
        });
    }
    let word = word(bytes, at + visit::HEADER);
    if word > most {
        return Err(Fault {
            number: paper::VALUE_OUTSIDE,
            place: at,
        });
    }
    Ok(word)
}

// A value under its place's own tag.
#[tactic(auto, unfolding(crate::specs::Front::value_at, crate::specs::Front::word_within))]
fn value(bytes: &[u8], at: usize, n: usize, place: Place) -> Result<Front, Fault>
    requires { at + 3 + n ≤ length bytes.now }
    ensures { result ≡ value_at place bytes.now at n }
{
    let word = word_within(bytes, at, n, place.most())?;
    Ok(Front::Told {
        answer: Ok(word),
        next: at + visit::HEADER + n,
    })
}

// A pressure in whole pascals, as 256 times their number.
#[tactic(auto, unfolding(crate::specs::Front::pascals_at, crate::specs::Front::word_within))]
fn pascals(bytes: &[u8], at: usize, n: usize) -> Result<Front, Fault>
    requires { at + 3 + n ≤ length bytes.now }
    ensures { result ≡ pascals_at bytes.now at n }
{
    let whole = word_within(bytes, at, n, visit::MOST_PASCALS)?;
    Ok(Front::Told {
        answer: Ok(whole * 256),
        next: at + visit::HEADER + n,
    })
}

// A missing answer: 20, then 22 for another place's channel or a number that is none of its reasons.
#[tactic(auto, unfolding(crate::specs::Front::missing_at))]
fn missing(bytes: &[u8], at: usize, n: usize, place: Place) -> Result<Front, Fault>
    requires { at + 3 + n ≤ length bytes.now }
    ensures { result ≡ missing_at place bytes.now at n }
{
    if n != visit::MISSING_ANSWER {
        return Err(Fault {
            number: paper::WRONG_FIELD_LENGTH,
            place: at,
        });
    }
    let channel = bytes[at + 3];
    let number = u32::from(bytes[at + 4]);
    if channel != place.tag() || number < visit::FIRST_MISSING || number > visit::LAST_MISSING {
        return Err(Fault {
            number: paper::VALUE_OUTSIDE,
            place: at,
        });
    }
    Ok(Front::Told {
        answer: Err(Absent { number }),
        next: at + visit::HEADER + n,
    })
}

// 19 for a tag that has no meaning there.
pub(crate) fn by_kind(
    bytes: &[u8],
    at: usize,
    n: usize,
    place: Place,
    kind: Kind,
) -> Result<Front, Fault>
    requires { at + 3 + n ≤ length bytes.now }
    ensures { result ≡ by_kind_at place kind bytes.now at n }
{
    match kind {
        Kind::Group => Ok(Front::Group {
            next: at + visit::HEADER + n,
        }),
        Kind::Value => value(bytes, at, n, place),
        Kind::Pascals => pascals(bytes, at, n),
        Kind::Missing => missing(bytes, at, n, place),
        Kind::Strange => Err(Fault {
            number: paper::TAG_OUT_OF_PLACE,
            place: at,
        }),
    }
}
