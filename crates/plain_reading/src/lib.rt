// A whole reading by the plain roads of its three channels, where all are enabled and every road is taken. Real air is read so.
// The codes come as three bytes, as in `compensation`'s calls: docs/PROMISES.md promises these so.
#![tactic(auto)]

ghost use Rattle.std.specs.Prelude.{◌≡◌};
ghost use Rattle.plain_reading.specs.Plain as plain;

use calibration::Words;
use compensation::{Answer, Reading};
use data::Counts;
use formula::Temperature;

// The values of the three channels, where all three plain roads are taken.
#[derive(Clone, Copy)]
pub struct PlainReading {
    pub temperature: Temperature,
    pub pressure: u32,
    pub humidity: u32,
}

// What the plain roads give of eight bytes with a chip's words, at the codes of temperature, pressure and humidity.
// They are tried where the codes are codes and skip no channel.
pub fn read(words: Words, bytes: [u8; 8], t: u8, p: u8, h: u8) -> Option<PlainReading>
    ensures { result ≡ plain.read_plainly words bytes t p h }
{
    if !are_enabled(t, p, h) {
        return None;
    }
    read_counts(words, data::count(bytes))
}

// Whether the codes are codes and skip no channel: each is 1 to 7.
pub fn are_enabled(t: u8, p: u8, h: u8) -> bool
    ensures { result ≡ plain.are_enabled t p h }
{
    paper::are_codes(t, p, h) & ((t != 0) & ((p != 0) & (h != 0)))
}

// What the plain roads give of three counts: one road after the other, each with the fine temperature of the first.
// The first that is not taken ends it.
pub fn read_counts(words: Words, counts: Counts) -> Option<PlainReading>
    ensures { result ≡ plain.counts_plainly words counts }
{
    let heat = formula_temperature::temperature_plainly(words.temperature, counts.temperature)?;
    let p = formula_pressure::pressure_plainly(words.pressure, heat.fine, counts.pressure)?;
    let h = formula_humidity::humidity_plainly(words.humidity, heat.fine, counts.humidity)?;
    Some(PlainReading {
        temperature: heat,
        pressure: p,
        humidity: h,
    })
}

// The answer whose channels have these values.
// Where the roads are taken it is the reading's.
pub fn answer(reading: PlainReading) -> Answer
    ensures { result ≡ plain.answer_of reading }
{
    Ok(Reading {
        temperature: Ok(reading.temperature),
        pressure: Ok(reading.pressure),
        humidity: Ok(reading.humidity),
    })
}
