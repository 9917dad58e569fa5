// The chip's words out of 18 numbers of 16 bits that a caller kept, T1 to T3, P1 to P9, H1 to H6. They are written there by `onegrish_laid`.
#![tactic(auto)]

ghost use Rattle.std.specs.Prelude.{◌≡◌, cond, Some, None};
ghost use Rattle.calibration.specs.Calibration.{calibration_answer};
ghost use Rattle.onegrish_kept.specs.Words as kept;

use calibration::{Calibration, HumidityWords, PressureWords, TemperatureWords, Words};
use paper::Refusal;

// How many words a chip has.
pub const WORDS: usize = 18;

// T1 to T3, from their places.
// T1 has no sign: as a negative word it stands for itself and 0x10000.
fn temperature_words(words: &[i16; WORDS]) -> TemperatureWords
    ensures { result ≡ kept.kept_temperature words.now }
{
    TemperatureWords {
        t1: words[0].cast_unsigned(),
        t2: words[1],
        t3: words[2],
    }
}

// P1 to P9, from their places.
// P1 has no sign, as T1.
fn pressure_words(words: &[i16; WORDS]) -> PressureWords
    ensures { result ≡ kept.kept_pressure words.now }
{
    PressureWords {
        p1: words[3].cast_unsigned(),
        p2: words[4],
        p3: words[5],
        p4: words[6],
        p5: words[7],
        p6: words[8],
        p7: words[9],
        p8: words[10],
        p9: words[11],
    }
}

// H1 to H6, from their places, where H1, H3 and H6 are words of 8 bits.
// H6 has a sign, the other two have none.
fn humidity_words(words: &[i16; WORDS]) -> Option<HumidityWords>
    ensures { result ≡ cond (kept.are_words words.now) (Some (kept.kept_humidity words.now)) None }
{
    Some(HumidityWords {
        h1: u8::try_from(words[12]).ok()?,
        h2: words[13],
        h3: u8::try_from(words[14]).ok()?,
        h4: words[15],
        h5: words[16],
        h6: i8::try_from(words[17]).ok()?,
    })
}

// The chip's words that a caller kept, or why they are refused.
// 2 for a slice that is not of 18 words, then 7 where H1, H3 or H6 is no word of 8 bits.
pub fn take_words(words: &[i16]) -> Calibration
    ensures { calibration_answer result ≡ calibration_answer (kept.taken words.now) }
{
    let Ok(words) = <&[i16; WORDS]>::try_from(words) else {
        return Err(Refusal {
            number: paper::WRONG_LENGTH,
        });
    };
    let Some(humidity) = humidity_words(words) else {
        return Err(Refusal {
            number: paper::OUT_OF_RANGE,
        });
    };
    Ok(Words {
        temperature: temperature_words(words),
        pressure: pressure_words(words),
        humidity,
    })
}
