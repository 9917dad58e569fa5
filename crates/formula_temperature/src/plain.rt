// The plain road of the temperature: the maker's lines with no check, where the count is near T1.
ghost use Rattle.std.specs.Prelude.{◌≡◌, ◌≤◌, nat_abs, Ok};
ghost use Rattle.steps.specs.declared.Signed.TheVariants.{Bits32};
ghost use Rattle.formula.specs.Plain.{Gives};
ghost use Rattle.formula_temperature.specs.Plain.{Near};
ghost use Rattle.formula_temperature.specs.Temperature.{fine_lines, degrees_line, temperature_of};

use calibration::TemperatureWords;
use formula::Temperature;

// The fine temperature.
fn fine(words: TemperatureWords, count: u32) -> i64
    requires { Near words.t1 count }
    ensures { Gives Bits32 1179648 (fine_lines words count) result }
{
    let t1 = words.t1 as i64;
    let t2 = words.t2 as i64;
    let t3 = words.t3 as i64;
    let difference = (count / 16) as i64 - t1;
    let var1 = ((count / 8) as i64 - t1 * 2) * t2 >> 11;
    let var2 = (difference * difference >> 12) * t3 >> 14;
    var1 + var2
}

// The temperature of a fine temperature.
fn degrees(fine: i64) -> i64
    requires { nat_abs fine ≤ 1179648 }
    ensures { Gives Bits32 23041 (degrees_line fine) result }
{
    fine * 5 + 128 >> 8
}

// The temperature and the fine temperature of a count that is near T1.
pub(crate) fn temperature(words: TemperatureWords, count: u32) -> Temperature
    requires { Near words.t1 count }
    ensures { temperature_of words count ≡ Ok result }
{
    let fine = fine(words, count);
    let value = degrees(fine);
    Temperature {
        value: value as i32,
        fine: fine as i32,
    }
}
