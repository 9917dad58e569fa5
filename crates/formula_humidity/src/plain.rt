// The plain road of the humidity: the maker's lines with no check, where the fine temperature and the words are usual.
ghost use Rattle.std.specs.Prelude.{◌≡◌, ◌≤◌, nat_abs};
ghost use Rattle.steps.specs.declared.Signed.TheVariants.{Bits32};
ghost use Rattle.formula.specs.Plain.{Gives, channel_plainly};
ghost use Rattle.formula_humidity.specs.Plain.{SmallWords, Plain, Small, multiplies};
ghost use Rattle.formula_humidity.specs.Humidity.{level_factor, bend_factor, gain_factor, correction_line, humidity_of};

use super::{guards, lines};
use calibration::HumidityWords;

// The product's first factor.
fn level(words: HumidityWords, count: u32, v: i64) -> i64
    requires { SmallWords words × ((count ≤ 65535) × (nat_abs v ≤ 401200)) }
    ensures { Gives Bits32 55421 (level_factor words count v) result }
{
    let adc = count as i64;
    let h4 = words.h4 as i64;
    let h5 = words.h5 as i64;
    adc * 16384 - h4 * 1048576 - h5 * v + 16384 >> 15
}

// What the second factor has of H3 and H6.
fn bend(words: HumidityWords, v: i64) -> i64
    requires { SmallWords words × (nat_abs v ≤ 401200) }
    ensures { Gives Bits32 2025745 (bend_factor words v) result }
{
    let h3 = words.h3 as i64;
    let h6 = words.h6 as i64;
    (v * h6 >> 10) * ((v * h3 >> 11) + 32768) >> 10
}

// The product's second factor.
fn gain(words: HumidityWords, v: i64) -> i64
    requires { SmallWords words × (nat_abs v ≤ 401200) }
    ensures { Gives Bits32 128842 (gain_factor words v) result }
{
    let h2 = words.h2 as i64;
    (bend(words, v) + 2097152) * h2 + 8192 >> 14
}

// The product without what H1 takes of it.
fn correct(words: HumidityWords, v: i64) -> i64
    requires { Small v }
    ensures { Gives Bits32 2147483647 (correction_line words v) result }
{
    let h1 = words.h1 as i64;
    v - (((v >> 15) * (v >> 15) >> 7) * h1 >> 4)
}

// The humidity, where the fine temperature and the words are usual and the count has its sixteen bits.
// The road ends where the product is not small.
pub(crate) fn humidity(words: HumidityWords, fine: i32, count: u32) -> Option<u32>
    requires { Plain words fine count }
    ensures { result ≡ channel_plainly (multiplies words fine count) (humidity_of words fine count) }
{
    let difference = fine as i64 - 76800;
    let product = level(words, count, difference) * gain(words, difference);
    if guards::is_small(product) {
        return Some(lines::last(correct(words, product)));
    }
    None
}
