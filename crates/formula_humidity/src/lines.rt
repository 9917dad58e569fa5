// The maker's lines of the humidity, at 32 bits.
ghost use Rattle.std.specs.Prelude.{◌≡◌, pos, Ok};
ghost use Rattle.steps.specs.declared.Signed.TheVariants.{Bits32};
ghost use Rattle.steps.specs.Work.{run};
ghost use Rattle.formula.specs.Answers.{answered};
ghost use Rattle.formula_humidity.specs.Humidity.{level_factor, bend_factor, gain_factor, product_line, correction_line, humidity_lines, clamped, last_line};

use calibration::HumidityWords;
use formula::{difference, number};
use steps::{Num, Signed, add, multiply, shift_left, shift_right, subtract};

// The first factor of the maker's product: the count less what H4 and H5 take off.
fn level(words: HumidityWords, count: u32, v: i64) -> Num
    ensures { result ≡ run Bits32 (level_factor words count v) }
{
    let w = Signed::Bits32;
    let adc = number(count);
    let h4 = number(words.h4);
    let h5 = number(words.h5);
    let above = subtract(w, shift_left(w, adc, 14), shift_left(w, h4, 20));
    let warm = subtract(w, above, multiply(w, h5, Ok(v)));
    shift_right(w, add(w, warm, Ok(16384)), 15)
}

// In the second factor, what H6 and H3 make of v. The 32768 is added before the product.
fn bend(words: HumidityWords, v: i64) -> Num
    ensures { result ≡ run Bits32 (bend_factor words v) }
{
    let w = Signed::Bits32;
    let h3 = number(words.h3);
    let h6 = number(words.h6);
    let left = shift_right(w, multiply(w, Ok(v), h6), 10);
    let right = shift_right(w, multiply(w, Ok(v), h3), 11);
    let product = multiply(w, left, add(w, right, Ok(32768)));
    shift_right(w, product, 10)
}

// The second factor of the maker's product.
fn gain(words: HumidityWords, v: i64) -> Num
    ensures { result ≡ run Bits32 (gain_factor words v) }
{
    let w = Signed::Bits32;
    let h2 = number(words.h2);
    let sum = add(w, bend(words, v), Ok(2097152));
    shift_right(w, add(w, multiply(w, sum, h2), Ok(8192)), 14)
}

// The maker's second v: the two factors' product.
#[tactic(auto, using(steps::proofs::Laws::back), unfolding(steps::specs::Work::run, steps::specs::Step::multiplied, crate::specs::Humidity::product_line))]
fn product(words: HumidityWords, count: u32, v: i64) -> Num
    ensures { result ≡ run Bits32 (product_line words count v) }
{
    multiply(Signed::Bits32, level(words, count, v), gain(words, v))
}

// The maker's third v: less its own square's share by H1.
fn correction(words: HumidityWords, v: i64) -> Num
    ensures { result ≡ run Bits32 (correction_line words v) }
{
    let w = Signed::Bits32;
    let h1 = number(words.h1);
    let coarse = shift_right(w, Ok(v), 15);
    let square = shift_right(w, multiply(w, coarse, coarse), 7);
    subtract(w, Ok(v), shift_right(w, multiply(w, square, h1), 4))
}

// The lines one after the other: the first refusal decides.
#[tactic(auto, using(steps::proofs::Laws::back), unfolding(steps::specs::Work::run, steps::specs::Step::on_value, crate::specs::Humidity::difference_line, crate::specs::Humidity::humidity_lines))]
pub fn humidity(words: HumidityWords, fine: i32, count: u32) -> Num
    ensures { result ≡ run Bits32 (humidity_lines words fine count) }
{
    let difference = difference(Signed::Bits32, fine, 76800)?;
    let product = product(words, count, difference)?;
    correction(words, product)
}

// A number brought within 0 and 419430400, which is 100 %RH before the last shift.
fn clamp(v: i64) -> u32
    ensures { pos result ≡ clamped v }
{
    v.clamp(0, 419430400) as u32
}

// The humidity: what the clamp leaves, shifted by 12.
pub fn last(v: i64) -> u32
    ensures { answered (run Bits32 (last_line v)) ≡ Ok result }
{
    clamp(v) >> 12
}
