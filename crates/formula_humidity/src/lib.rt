// The maker's formula of the humidity, by two roads with one promise. On the checked road every step is tested, each line of the
// maker's a function with the line's definition as its promise. On the plain road the same lines are worked out with no
// test, where a guard on what comes in proves that no step can leave its type. Real air takes the plain road.
#![tactic(auto)]

ghost use Rattle.std.specs.Prelude.{◌≡◌};
ghost use Rattle.formula.specs.Answers.{channel_answer};
ghost use Rattle.formula.specs.Plain.{channel_plainly};
ghost use Rattle.formula_humidity.specs.Plain.{is_taken};
ghost use Rattle.formula_humidity.specs.Humidity.{humidity_of};

mod checked;
mod guards;
mod lines;
mod plain;

use calibration::HumidityWords;
use formula::ChannelAnswer;

// The humidity of a count, with the chip's words and the fine temperature.
// What the plain road does not answer the checked road does.
pub fn humidity(words: HumidityWords, fine: i32, count: u32) -> ChannelAnswer
    ensures { channel_answer result ≡ channel_answer (humidity_of words fine count) }
{
    if let Some(plain) = humidity_plainly(words, fine, count) {
        return Ok(plain);
    }
    checked::humidity(words, fine, count)
}

// What the plain road gives of a count.
// It is taken where what comes in is usual and the product is small.
pub fn humidity_plainly(words: HumidityWords, fine: i32, count: u32) -> Option<u32>
    ensures { result ≡ channel_plainly (is_taken words fine count) (humidity_of words fine count) }
{
    if guards::is_plain(words, fine, count) {
        return plain::humidity(words, fine, count);
    }
    None
}
