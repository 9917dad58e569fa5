// Compensation: what a logger's eight data bytes say of the air, channel by channel, or which number stands in a channel's place.
// The blocks come as two slices and the codes as three bytes: C lends and hands them so, and docs/PROMISES.md promises these calls.
#![tactic(auto)]

ghost use Rattle.std.specs.Prelude.{◌≡◌};
ghost use Rattle.compensation.specs.Compensation as comp;

mod channels;

use calibration::{Calibration, Words};
use formula::{ChannelAnswer, TemperatureAnswer};
use paper::Refusal;

// One reading: each channel has its value, or what stands in the value's place.
#[derive(Clone, Copy)]
pub struct Reading {
    pub temperature: TemperatureAnswer,
    pub pressure: ChannelAnswer,
    pub humidity: ChannelAnswer,
}

// A reading, or why it is refused whole.
pub type Answer = Result<Reading, Refusal>;

// The reading that eight bytes make with a chip's words, at the codes of temperature, pressure and humidity.
// A code above 7 refuses it with 7.
pub fn compensate_words(words: Words, bytes: [u8; 8], t: u8, p: u8, h: u8) -> Answer
    ensures { comp.reading_answer result ≡ comp.reading_answer (comp.compensated_words words bytes t p h) }
{
    if !paper::are_codes(t, p, h) {
        return Err(Refusal {
            number: paper::OUT_OF_RANGE,
        });
    }
    Ok(channels::read(words, data::count(bytes), t, p, h))
}

// The reading that the two calibration blocks and the data bytes make, at the codes of temperature, pressure and humidity.
// Blocks and data that are not 26, 7 and 8 bytes long refuse it with 2, and then a code above 7 with 7.
pub fn compensate(one: &[u8], two: &[u8], bytes: &[u8], t: u8, p: u8, h: u8) -> Answer
    ensures { comp.reading_answer result ≡ comp.reading_answer (comp.compensated one.now two.now bytes.now t p h) }
{
    compensate_with(calibration::calibrate(one, two), bytes, t, p, h)
}

// The same with the words that the blocks gave, or with what refused them.
// After the length check the eight bytes go by value.
pub fn compensate_with(known: Calibration, bytes: &[u8], t: u8, p: u8, h: u8) -> Answer
    ensures { comp.reading_answer result ≡ comp.reading_answer (comp.compensated_with known bytes.now t p h) }
{
    let words = known?;
    let Ok(eight) = <[u8; paper::DATA]>::try_from(bytes) else {
        return Err(Refusal {
            number: paper::WRONG_LENGTH,
        });
    };
    compensate_words(words, eight, t, p, h)
}
