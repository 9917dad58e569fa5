// Values read from what a person typed: a time, a temperature, a pressure or a humidity, or that it is missing.
#![tactic(auto)]

ghost use Rattle.std.specs.Prelude.{◌≡◌, ◌+◌, ◌*◌, ◌<◌, ◌^◌};
ghost use Rattle.visit_typed.specs.Same as texts;
ghost use Rattle.visit_typed.specs.Typed as typed;

mod amounts;
mod digits;

use amounts::{Amount, Scale};
use bench_bytes::rest;
use visit::{Absent, Answer};

// What is wrong with a typed value.
#[derive(Clone, Copy, Debug, PartialEq, Eq)]
pub enum Fault {
    // It is not written as such a value is.
    Unwritten,
    // It is outside its limits.
    Outside,
    // It is no multiple of what its channel counts.
    Uneven,
    // A missing answer has no such number.
    NoReason,
}

// What a text says: a value's word or that it is missing, or what is wrong with it.
pub type Typed = Result<Answer, Fault>;

// Whether two texts are the same: the library's == under the name that the page of promises gives it.
pub fn same(a: &[u8], b: &[u8]) -> bool
    ensures { result ≡ texts.same a.now b.now }
{
    a == b
}

// The number that a text stands for: one to ten digits, and nothing else.
#[tactic(auto, unfolding(crate::specs::Typed::number))]
pub fn number(text: &[u8]) -> Option<u64>
    ensures { result ≡ typed.number text.now }
{
    let read = digits::read(text)?;
    (read.end == text.len()).then_some(read.value)
}

// A time: seconds, in 32 bits.
#[tactic(auto, unfolding(crate::specs::Typed::time))]
pub fn time(text: &[u8]) -> Typed
    ensures { result ≡ typed.time text.now }
{
    let n = number(text).ok_or(Fault::Unwritten)?;
    match u32::try_from(n) {
        Ok(seconds) => Ok(Ok(seconds)),
        Err(_) => Err(Fault::Outside),
    }
}

// A temperature: a minus or none, and degrees with at most two decimals.
#[tactic(auto, unfolding(crate::specs::Typed::temperature))]
pub fn temperature(text: &[u8]) -> Typed
    ensures { result ≡ typed.temperature text.now }
{
    if text.starts_with(b"missing ") {
        return missing(text);
    }
    if text.starts_with(b"-") {
        return degrees(true, rest(text, 1));
    }
    degrees(false, text)
}

// A pressure: pascals with at most eight decimals.
#[tactic(auto, unfolding(crate::specs::Typed::pressure))]
pub fn pressure(text: &[u8]) -> Typed
    ensures { result ≡ typed.pressure text.now }
{
    scaled(amounts::PASCALS, text, b" Pa")
}

// A humidity: percents with at most ten decimals.
#[tactic(auto, unfolding(crate::specs::Typed::humidity))]
pub fn humidity(text: &[u8]) -> Typed
    ensures { result ≡ typed.humidity text.now }
{
    scaled(amounts::PERCENTS, text, b" %RH")
}

// An amount in a unit, of which a channel counts parts.
#[tactic(auto, unfolding(crate::specs::Typed::scaled))]
fn scaled(scale: Scale, text: &[u8], unit: &[u8]) -> Typed
    requires fits { scale.largest * scale.one + 100000000000 < 2 ^ 64 }
    requires stepped { 0 < scale.step }
    requires small { scale.most < scale.step * 2 ^ 32 }
    ensures { result ≡ typed.scaled scale text.now unit.now }
{
    if text.starts_with(b"missing ") {
        return missing(text);
    }
    let a = amounts::read(text, scale.places).ok_or(Fault::Unwritten)?;
    if !has_unit(text, a, unit) {
        return Err(Fault::Unwritten);
    }
    amounts::counted(scale, a.whole, a.part)
}

// Degrees, below zero or not, with their unit.
#[tactic(auto, unfolding(crate::specs::Typed::degrees))]
fn degrees(minus: bool, text: &[u8]) -> Typed
    ensures { result ≡ typed.degrees minus text.now }
{
    let a = amounts::read(text, 2).ok_or(Fault::Unwritten)?;
    if has_unit(text, a, b" \xC2\xB0C") || has_unit(text, a, b" C") {
        return amounts::celsius(minus, a.whole, a.part);
    }
    Err(Fault::Unwritten)
}

// Whether nothing but a unit stands after an amount.
fn has_unit(text: &[u8], a: Amount, unit: &[u8]) -> bool
    ensures { result ≡ typed.has_unit text.now a unit.now }
{
    same(rest(text, a.end), unit)
}

// The missing answer of a text that says so.
#[tactic(auto, unfolding(crate::specs::Typed::missing))]
fn missing(text: &[u8]) -> Typed
    ensures { result ≡ typed.missing text.now }
{
    let n = number(rest(text, 8)).ok_or(Fault::Unwritten)?;
    if n < 10 || n > 14 {
        return Err(Fault::NoReason);
    }
    Ok(Err(Absent { number: n as u32 }))
}
