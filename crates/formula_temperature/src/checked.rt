// The checked road: the maker's lines with every step tested, for all words and counts.
ghost use Rattle.std.specs.Prelude.{◌≡◌};
ghost use Rattle.formula_temperature.specs.Temperature.{temperature_of};

use super::lines;
use calibration::TemperatureWords;
use formula::{Temperature, TemperatureAnswer};

// The temperature and the fine temperature.
pub fn temperature(words: TemperatureWords, count: u32) -> TemperatureAnswer
    ensures { result ≡ temperature_of words count }
{
    let fine = lines::fine(words, count)?;
    let value = lines::degrees(fine)?;
    Ok(Temperature {
        value: value as i32,
        fine: fine as i32,
    })
}
