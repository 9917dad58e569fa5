// The maker's formula of the temperature, by two roads with one promise. On the checked road every step is tested, each line of the
// maker's a function with the line's definition as its promise. On the plain road the same lines are worked out with no
// test, where a guard on what comes in proves that no step can leave its type. Real air takes the plain road.
#![tactic(auto)]

ghost use Rattle.std.specs.Prelude.{◌≡◌};
ghost use Rattle.formula.specs.Answers.{temperature_answer};
ghost use Rattle.formula.specs.Plain.{temperature_plainly};
ghost use Rattle.formula_temperature.specs.Plain.{is_near};
ghost use Rattle.formula_temperature.specs.Temperature.{temperature_of};

mod checked;
mod guards;
mod lines;
mod plain;

use calibration::TemperatureWords;
use formula::{Temperature, TemperatureAnswer};

// The temperature and the fine temperature of a count, with the chip's words.
// What the plain road does not answer the checked road does.
pub fn temperature(words: TemperatureWords, count: u32) -> TemperatureAnswer
    ensures { temperature_answer result ≡ temperature_answer (temperature_of words count) }
{
    if let Some(plain) = temperature_plainly(words, count) {
        return Ok(plain);
    }
    checked::temperature(words, count)
}

// What the plain road gives of a count.
// It is taken where the count is near T1.
pub fn temperature_plainly(words: TemperatureWords, count: u32) -> Option<Temperature>
    ensures { result ≡ temperature_plainly (is_near words.t1 count) (temperature_of words count) }
{
    if guards::is_near(words.t1, count) {
        return Some(plain::temperature(words, count));
    }
    None
}
