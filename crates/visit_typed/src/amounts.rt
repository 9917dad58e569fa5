// Amounts: digits, and where a point follows them decimals; and the word that an amount of a channel stands for.
ghost use Rattle.std.specs.Prelude.{◌≡◌, ◌+◌, ◌*◌, ◌<◌, ◌^◌, IfSome, length as size, true};
ghost use Rattle.visit_typed.specs.Typed as typed;

use crate::{Fault, Typed, digits};

// An amount: its whole part, so many decimals as a number, and the place after it.
#[derive(Clone, Copy)]
pub struct Amount {
    pub whole: u64,
    pub part: u64,
    pub end: usize,
}

// How a channel counts: how many decimals it may have, what they count for one whole, the largest whole part,
// the most that they count in all, and how many of them make one step.
#[derive(Clone, Copy)]
pub struct Scale {
    pub places: u64,
    pub one: u64,
    pub largest: u64,
    pub most: u64,
    pub step: u64,
}

// A pressure counts 256ths of a pascal: eight decimals count 390,625 for one of them.
pub(crate) const PASCALS: Scale = Scale {
    places: 8,
    one: 100000000,
    largest: 16777215,
    most: 1677721599609375,
    step: 390625,
};

// A humidity counts 1024ths of a percent: ten decimals count 9,765,625 for one of them.
pub(crate) const PERCENTS: Scale = Scale {
    places: 10,
    one: 10000000000,
    largest: 100,
    most: 1000000000000,
    step: 9765625,
};

// Whether a point stands at a place of a text.
#[tactic(auto, unfolding(crate::specs::Typed::is_point))]
fn is_point(text: &[u8], at: usize) -> bool
    ensures value { result ≡ typed.is_point text.now at }
    ensures within { result ≡ true → at < size text.now }
{
    at < text.len() && text[at] == b'.'
}

// The amount at a text's front, with at most so many decimals.
#[tactic(auto, unfolding(crate::specs::Typed::amount))]
pub(crate) fn read(text: &[u8], places: u64) -> Option<Amount>
    ensures value { result ≡ typed.amount text.now places }
    ensures bounded { IfSome result (λ a. (a.whole < 100000000000) × (a.part < 100000000000)) }
{
    let whole = digits::read(text)?;
    let end = whole.end;
    if !is_point(text, end) {
        return Some(Amount {
            whole: whole.value,
            part: 0,
            end,
        });
    }
    let part = digits::read_part(text, end + 1, places)?;
    Some(Amount {
        whole: whole.value,
        part: part.value,
        end: part.end,
    })
}

// The word of a temperature in hundredths of a degree.
#[tactic(auto, unfolding(crate::specs::Typed::celsius))]
pub(crate) fn celsius(minus: bool, whole: u64, part: u64) -> Typed
    requires { (whole < 100000000000) × (part < 100000000000) }
    ensures { result ≡ typed.celsius minus whole part }
{
    let n = whole * 100 + part;
    if minus {
        return below_zero(n);
    }
    if n > 0x7FFFFFFF {
        return Err(Fault::Outside);
    }
    Ok(Ok(n as u32))
}

// The word of so many hundredths below zero.
#[tactic(auto, unfolding(crate::specs::Typed::below_zero))]
fn below_zero(n: u64) -> Typed
    ensures { result ≡ typed.below_zero n }
{
    if n > 0x80000000 {
        return Err(Fault::Outside);
    }
    if n == 0 {
        return Ok(Ok(0));
    }
    Ok(Ok((0x100000000 - n) as u32))
}

// The word of an amount that a channel counts in parts.
#[tactic(auto, unfolding(crate::specs::Typed::counted))]
pub(crate) fn counted(scale: Scale, whole: u64, part: u64) -> Typed
    requires fits { scale.largest * scale.one + part < 2 ^ 64 }
    requires stepped { 0 < scale.step }
    requires small { scale.most < scale.step * 2 ^ 32 }
    ensures { result ≡ typed.counted scale whole part }
{
    if whole > scale.largest {
        return Err(Fault::Outside);
    }
    let n = whole * scale.one + part;
    if n > scale.most {
        return Err(Fault::Outside);
    }
    if n % scale.step != 0 {
        return Err(Fault::Uneven);
    }
    Ok(Ok((n / scale.step) as u32))
}
