// The three channels of one reading: skipped by their codes, without a temperature, or by the maker's formulas.
ghost use Rattle.std.specs.Prelude.{◌≡◌};
ghost use Rattle.compensation.specs.Compensation as comp;

use crate::Reading;
use calibration::{HumidityWords, PressureWords, TemperatureWords, Words};
use data::Counts;
use formula::{ChannelAnswer, TemperatureAnswer};
use paper::Missing;

// In the place of a channel that its code skips.
const SKIPPED: Missing = Missing {
    number: paper::SKIPPED,
};

// In the place of an enabled channel that has no temperature to be compensated with.
const NO_TEMPERATURE: Missing = Missing {
    number: paper::NO_TEMPERATURE,
};

// The temperature's channel: skipped by code 0, and else the formula's answer.
fn temperature(t: u8, words: TemperatureWords, count: u32) -> TemperatureAnswer
    ensures { result ≡ comp.temperature_channel t words count }
{
    if t == 0 {
        return Err(SKIPPED);
    }
    formula_temperature::temperature(words, count)
}

// A channel that is compensated with the fine temperature: skipped by code 0, without a temperature, or by its formula.
// So go pressure and humidity.
fn channel<F: FnOnce(i32) -> ChannelAnswer>(
    code: u8,
    heat: TemperatureAnswer,
    formula: F,
) -> ChannelAnswer
    requires { F.IsAlwaysCallable formula }
    ensures { comp.IsChannelBy (F.post formula) code heat result }
{
    if code == 0 {
        return Err(SKIPPED);
    }
    let warm = heat.map_err(|_| NO_TEMPERATURE)?;
    formula(warm.fine)
}

// The pressure's channel, by the maker's formula.
fn pressure(p: u8, heat: TemperatureAnswer, words: PressureWords, count: u32) -> ChannelAnswer
    ensures { result ≡ comp.pressure_channel p heat words count }
{
    channel(
        p,
        heat,
        |fine| formula_pressure::pressure(words, fine, count),
    )
}

// The humidity's channel, by the maker's formula.
fn humidity(h: u8, heat: TemperatureAnswer, words: HumidityWords, count: u32) -> ChannelAnswer
    ensures { result ≡ comp.humidity_channel h heat words count }
{
    channel(
        h,
        heat,
        |fine| formula_humidity::humidity(words, fine, count),
    )
}

// The three channels together.
// Pressure and humidity are compensated with the temperature of the same reading.
pub fn read(words: Words, counts: Counts, t: u8, p: u8, h: u8) -> Reading
    ensures { result ≡ comp.reading words counts t p h }
{
    let heat = temperature(t, words.temperature, counts.temperature);
    Reading {
        temperature: heat,
        pressure: pressure(p, heat, words.pressure, counts.pressure),
        humidity: humidity(h, heat, words.humidity, counts.humidity),
    }
}
