// The maker's formula of the pressure, by two roads with one promise. On the checked road every step is tested, each line of the
// maker's a function with the line's definition as its promise. On the plain road the same lines are worked out with no
// test, where a guard on what comes in proves that no step can leave its type. Real air takes the plain road.
#![tactic(auto)]

ghost use Rattle.std.specs.Prelude.{◌≡◌};
ghost use Rattle.formula.specs.Answers.{channel_answer};
ghost use Rattle.formula.specs.Plain.{channel_plainly};
ghost use Rattle.formula_pressure.specs.Plain.{is_taken};
ghost use Rattle.formula_pressure.specs.Pressure.{pressure_of};

mod checked;
mod guards;
mod lines;
mod plain;

use calibration::PressureWords;
use formula::ChannelAnswer;

// The pressure of a count, with the chip's words and the fine temperature.
// What the plain road does not answer the checked road does.
pub fn pressure(words: PressureWords, fine: i32, count: u32) -> ChannelAnswer
    ensures { channel_answer result ≡ channel_answer (pressure_of words fine count) }
{
    if let Some(plain) = pressure_plainly(words, fine, count) {
        return Ok(plain);
    }
    checked::pressure(words, fine, count)
}

// What the plain road gives of a count.
// It is taken where what comes in, the dividend and the divisor are usual, and the pressure lies from 0 to 4294967295.
pub fn pressure_plainly(words: PressureWords, fine: i32, count: u32) -> Option<u32>
    ensures { result ≡ channel_plainly (is_taken words fine count) (pressure_of words fine count) }
{
    if guards::is_plain(words.p1, fine, count) {
        return plain::pressure(words, fine, count);
    }
    None
}
